//! Names with their indexes, what a plain line of each name comes to, and a write.

use ctl_names::{CtlError, CtlName, read};
use ctl_values::{CtlStep, Times, Wish, plan};
use std::process::Abort;

/// The moment, and the times that arenas are created with.
const TIMES: Times = Times {
    now: 7,
    dirty_ms: 10000,
    muzzy_ms: 0,
};

#[test]
fn names_are_found_with_their_indexes(rt: HostRuntime) {
    let names: [(&str, u8, u32, u32); 9] = [
        ("epoch", 0, 0, 0),
        ("tcache.destroy", 6, 0, 0),
        ("arena.31.initialized", 7, 31, 0),
        ("arena.4096.decay", 8, 4096, 0),
        ("arena.0.purge", 9, 0, 0),
        ("arenas.bin.35.size", 25, 0, 35),
        ("arenas.lextent.84.size", 28, 0, 84),
        ("stats.arenas.4097.bins.7.curregs", 40, 4097, 7),
        ("stats.arenas.4096.lextents.0.curlextents", 42, 4096, 0),
    ];
    for (name, row, i, j) in names {
        assert_eq!(rt; read(name.as_bytes()), Ok(CtlName { row, i, j }), "{name}");
    }
    let unknown = [
        "",
        "epoch.",
        ".epoch",
        "Epoch",
        "arena.32.purge",
        "arena.01.purge",
        "arena..purge",
        "arena.4096.reset",
        "arena.4097.purge",
        "stats.arenas.4098.pactive",
        "arenas.bin.36.size",
        "arenas.lextent.85.size",
        "arena.<arena>.reset",
        "stats.mapped",
        "tcache.read",
    ];
    for name in unknown {
        assert_eq!(rt; read(name.as_bytes()), Err(CtlError::Enoent), "{name}");
    }
}

/// What a line of a name comes to: the name of its step or of its error.
fn comes_to(name: &str, wish: Wish) -> &'static str {
    let planned = match read(name.as_bytes()) {
        Ok(name) => plan(name, wish, TIMES),
        Err(error) => Err(error),
    };
    match planned {
        Ok(CtlStep::Number(_)) => "number",
        Ok(CtlStep::Call(_)) => "call",
        Ok(CtlStep::CallAll(_)) => "calls",
        Ok(CtlStep::Setting(_) | CtlStep::ArenaSetting(_, _)) => "setting",
        Ok(CtlStep::Default(_, _)) => "default",
        Ok(CtlStep::Refresh) => "refresh",
        Ok(CtlStep::Stat(_, _)) => "stat",
        Ok(CtlStep::Lookup(_)) => "lookup",
        Err(CtlError::Einval) => "EINVAL",
        Err(CtlError::Enoent) => "ENOENT",
        Err(CtlError::Eperm) => "EPERM",
    }
}

/// A plain line of a name and a write of a value to it each come to what is wanted.
fn passes(rt: &impl Abort, name: &str, plain: &str, value: &str, written: &str) {
    assert_eq!(rt; comes_to(name, Wish::Plain), plain, "{name}");
    assert_eq!(rt;
        comes_to(name, Wish::Write(value.as_bytes())),
        written,
        "{name} = {value}"
    );
}

#[test]
fn clients_names_are_read_and_written(rt: HostRuntime) {
    passes(&rt, "epoch", "setting", "18446744073709551615", "refresh");
    passes(&rt, "epoch", "setting", "18446744073709551616", "EINVAL");
    passes(&rt, "epoch", "setting", "01", "EINVAL");
    passes(&rt, "thread.arena", "setting", "4294967295", "call");
    passes(&rt, "thread.arena", "setting", "4294967296", "EINVAL");
    passes(&rt, "thread.tcache.enabled", "setting", "true", "call");
    passes(&rt, "thread.tcache.enabled", "setting", "on", "EINVAL");
    passes(&rt, "thread.tcache.flush", "call", "1", "EPERM");
}

#[test]
fn an_arenas_upkeep_is_not_written(rt: HostRuntime) {
    passes(&rt, "arena.0.initialized", "setting", "true", "EPERM");
    passes(&rt, "arena.31.decay", "call", "x", "EPERM");
    passes(&rt, "arena.4096.decay", "calls", "x", "EPERM");
    passes(&rt, "arena.0.purge", "call", "x", "EPERM");
    passes(&rt, "arena.4096.purge", "calls", "x", "EPERM");
    passes(&rt, "arena.32.purge", "ENOENT", "x", "ENOENT");
    passes(&rt, "arena.0.reset", "call", "x", "EPERM");
    passes(&rt, "arena.1.destroy", "call", "x", "EPERM");
}

#[test]
fn an_arenas_settings_are_read_and_written(rt: HostRuntime) {
    passes(&rt, "arena.5.dirty_decay_ms", "setting", "-1", "call");
    passes(&rt, "arena.5.dirty_decay_ms", "setting", "-2", "EINVAL");
    passes(
        &rt,
        "arena.5.muzzy_decay_ms",
        "setting",
        "1000000000",
        "call",
    );
    passes(
        &rt,
        "arena.5.muzzy_decay_ms",
        "setting",
        "1000000001",
        "EINVAL",
    );
    passes(&rt, "arena.0.extent_hooks", "setting", "31", "call");
    passes(&rt, "arena.0.extent_hooks", "setting", "32", "EINVAL");
    passes(
        &rt,
        "arena.0.retain_grow_limit",
        "setting",
        "2097152",
        "call",
    );
    passes(
        &rt,
        "arena.0.retain_grow_limit",
        "setting",
        "2097151",
        "EINVAL",
    );
    passes(
        &rt,
        "arena.0.retain_grow_limit",
        "setting",
        "34359738368",
        "call",
    );
    passes(
        &rt,
        "arena.0.retain_grow_limit",
        "setting",
        "34359738369",
        "EINVAL",
    );
}

#[test]
fn names_of_all_arenas_are_read_and_written(rt: HostRuntime) {
    passes(&rt, "arenas.narenas", "setting", "1", "EPERM");
    passes(&rt, "arenas.dirty_decay_ms", "setting", "0", "default");
    passes(&rt, "arenas.muzzy_decay_ms", "setting", "-1", "default");
    passes(&rt, "arenas.muzzy_decay_ms", "setting", "", "EINVAL");
    passes(&rt, "arenas.create", "call", "31", "call");
    passes(&rt, "arenas.create", "call", "x", "EINVAL");
    passes(&rt, "arenas.lookup", "EINVAL", "@200000", "lookup");
    passes(&rt, "arenas.lookup", "EINVAL", "@00", "EINVAL");
    passes(&rt, "arenas.lookup", "EINVAL", "200000", "EINVAL");
}

#[test]
fn numbers_of_classes_are_not_written(rt: HostRuntime) {
    passes(&rt, "arenas.quantum", "number", "16", "EPERM");
    passes(&rt, "arenas.page", "number", "x", "EPERM");
    passes(&rt, "arenas.tcache_max", "number", "x", "EPERM");
    passes(&rt, "arenas.nbins", "number", "x", "EPERM");
    passes(&rt, "arenas.nhbins", "number", "x", "EPERM");
    passes(&rt, "arenas.nlextents", "number", "x", "EPERM");
    passes(&rt, "arenas.bin.35.size", "number", "x", "EPERM");
    passes(&rt, "arenas.bin.0.nregs", "number", "x", "EPERM");
    passes(&rt, "arenas.bin.0.slab_size", "number", "x", "EPERM");
    passes(&rt, "arenas.lextent.84.size", "number", "x", "EPERM");
}

#[test]
fn statistics_are_not_written(rt: HostRuntime) {
    passes(&rt, "stats.allocated", "stat", "x", "EPERM");
    passes(&rt, "stats.active", "stat", "x", "EPERM");
    passes(&rt, "stats.retained", "stat", "x", "EPERM");
    passes(&rt, "stats.arenas.4096.pactive", "stat", "x", "EPERM");
    passes(
        &rt,
        "stats.arenas.4097.small.allocated",
        "stat",
        "x",
        "EPERM",
    );
    passes(&rt, "stats.arenas.0.bins.35.curslabs", "stat", "x", "EPERM");
    passes(
        &rt,
        "stats.arenas.0.bins.36.curslabs",
        "ENOENT",
        "x",
        "ENOENT",
    );
    passes(
        &rt,
        "stats.arenas.0.lextents.84.curlextents",
        "stat",
        "x",
        "EPERM",
    );
    passes(&rt, "tcache.create", "call", "0", "EPERM");
    passes(&rt, "tcache.flush", "EPERM", "0", "call");
    passes(&rt, "tcache.destroy", "EPERM", "x", "EINVAL");
}

#[test]
fn numbers_are_those_of_the_classes(rt: HostRuntime) {
    let numbers = [
        ("arenas.quantum", 16),
        ("arenas.page", 4096),
        ("arenas.tcache_max", 32768),
        ("arenas.nbins", 36),
        ("arenas.nhbins", 41),
        ("arenas.nlextents", 85),
        ("arenas.bin.0.size", 8),
        ("arenas.bin.35.size", 14336),
        ("arenas.bin.0.nregs", 512),
        ("arenas.bin.35.nregs", 2),
        ("arenas.bin.35.slab_size", 28672),
        ("arenas.lextent.0.size", 16384),
        ("arenas.lextent.84.size", 34359738368),
    ];
    for (name, want) in numbers {
        let Ok(name) = read(name.as_bytes()) else {
            assert!(rt; false, "{name}");
            continue;
        };
        let Ok(CtlStep::Number(number)) = plan(name, Wish::Plain, TIMES) else {
            assert!(rt; false, "{want}");
            continue;
        };
        assert_eq!(rt; number, want);
    }
}
