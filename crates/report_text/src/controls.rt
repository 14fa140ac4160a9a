//! The texts of what lines of controls answer where they begin (`mallctl` in the manual).

ghost use Rattle.std.specs.Prelude.{Some};
ghost use Rattle.report_text.specs.Controls.{ctl_text};

use std::fmt;

/// What a line of a control answers where it begins, without a call.
#[derive(Clone, Copy, Debug, PartialEq, Eq)]
pub enum CtlAnswer {
    /// What was written is set.
    Done,
    /// The value, a number.
    Number(u64),
    /// The value, a truth.
    Truth(bool),
    /// The value, a decay time in milliseconds, -1 for never.
    Time(i64),
    /// The name is unknown, or an index in it is out of its row.
    Enoent,
    /// What is only read, or only acts, was written to.
    Eperm,
    /// What was written is no value of its kind, or a value is wanting.
    Einval,
    /// The arena with the index isn't live (`EFAULT` in the manual).
    Gone(u32),
}

impl fmt::Display for CtlAnswer {
    ghost output = { λ answer. Some (ctl_text answer) };

    fn fmt<W: fmt::Write>(&self, f: &mut fmt::Formatter<W>) -> fmt::Result {
        match *self {
            CtlAnswer::Done => f.write_str("ok"),
            CtlAnswer::Number(number) => write!(f, "{number}"),
            CtlAnswer::Truth(true) => f.write_str("true"),
            CtlAnswer::Truth(false) => f.write_str("false"),
            CtlAnswer::Time(ms) => write!(f, "{ms}"),
            CtlAnswer::Enoent => f.write_str("ENOENT"),
            CtlAnswer::Eperm => f.write_str("EPERM"),
            CtlAnswer::Einval => f.write_str("EINVAL"),
            CtlAnswer::Gone(index) => write!(f, "EFAULT no arena {index}"),
        }
    }
}
