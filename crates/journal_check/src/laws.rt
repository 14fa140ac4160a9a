//! What an input without a bad line means, and which texts are such inputs. Each law is a function that does nothing, whose contract
//! says it.

ghost use Rattle.journal_check.specs.Accepted.{AcceptedInputsPass, PassedInputsAreAccepted, StandingInputsAreWhole, WholeInputsStand};
ghost use Rattle.journal_check.specs.Printed.{LinesArePassedOver, PrintedJournalsAreAccepted, TextsArePassedOver};

/// An input has no bad line exactly where each line is passed over or is an entry, and each arena's entries may stand where
/// they come. The arenas that it leaves are those that these entries leave, each by itself, and they are good.
pub fn inputs_are_judged_by_arena()
    ensures stand { WholeInputsStand }
    ensures whole { StandingInputsAreWhole }
{}

/// An input is accepted exactly where its journals are, and it passes no limit.
pub fn accepted_inputs_pass()
    ensures pass { AcceptedInputsPass }
    ensures accepted { PassedInputsAreAccepted }
{}

/// The text of the journals of arenas is accepted, behind any text that is passed over, where each entry may stand and no two arenas
/// are left with one chunk. `journal::put_journals` prints such a text.
pub fn printed_journals_are_accepted()
    ensures { PrintedJournalsAreAccepted }
{}

/// A line that begins with `arena ` or `threads ` is a text that is passed over, and so are such texts one behind the other.
pub fn texts_are_passed_over()
    ensures line { LinesArePassedOver }
    ensures together { TextsArePassedOver }
{}
