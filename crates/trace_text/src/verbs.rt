//! Reading a call: its first word and its arguments.

ghost use Rattle.std.specs.Prelude.{◌≡◌, map};
ghost use Rattle.trace_text.specs.Causes.{Gives};
ghost use Rattle.trace_text.specs.Ranges.{box_of, index_of};
ghost use Rattle.trace_text.specs.Verbs.{nothing_of, in_one, pointer_of, named_size_of, memalign_of, decay_time_of, switch_of, control_call_of, client_verb_of, slot_verb_of, malloc_in_of, free_in_of, arena_verb_of, unused_verb_of, verb_of};

use crate::parts::{address, both_parts, control, decimal, is, name, written};
use crate::ranges::{box_number, index, time};
use crate::{LineFault, Name, Ptr, Verb};
use space_model::Rest;
use std::alloc::Global;

/// A call with its arguments.
#[tactic(auto, unfolding(crate::specs::Verbs::verb_of))]
pub fn verb(alloc: Global, words: &[&[u8]]) -> Result<Verb, LineFault>
    ensures { Gives result (verb_of (map (λ w. w.now) words.now)) }
{
    let [word, arguments @ ..] = words else {
        return Err(LineFault::Words);
    };
    if is(word, "malloc") {
        let (name, size) = named_size(alloc, arguments)?;
        Ok(Verb::Malloc { name, size })
    } else if is(word, "free") {
        Ok(Verb::Free(only_pointer(alloc, arguments)?))
    } else if is(word, "memalign") {
        memalign(alloc, arguments)
    } else if is(word, "realloc") {
        let (name, size) = named_size(alloc, arguments)?;
        Ok(Verb::Realloc { name, size })
    } else if is(word, "publish") {
        Ok(Verb::Publish(only_pointer(alloc, arguments)?))
    } else if is(word, "take") {
        Ok(Verb::Take(only_pointer(alloc, arguments)?))
    } else {
        unused_verb(alloc, word, arguments)
    }
}

/// A call about the unused pages of an arena, or another one about an arena or a client.
#[tactic(auto, unfolding(crate::specs::Verbs::unused_verb_of))]
fn unused_verb(alloc: Global, word: &[u8], arguments: &[&[u8]]) -> Result<Verb, LineFault>
    ensures { Gives result (unused_verb_of word.now (map (λ w. w.now) arguments.now)) }
{
    if is(word, "purge") {
        Ok(Verb::Purge(only_index(arguments)?))
    } else if is(word, "decay") {
        Ok(Verb::Decay(only_index(arguments)?))
    } else if is(word, "dirty") {
        decay_time(Rest::Dirty, arguments)
    } else if is(word, "muzzy") {
        decay_time(Rest::Muzzy, arguments)
    } else {
        arena_verb(alloc, word, arguments)
    }
}

/// A call about an arena as a whole, or one about a client.
#[tactic(auto, unfolding(crate::specs::Verbs::arena_verb_of))]
fn arena_verb(alloc: Global, word: &[u8], arguments: &[&[u8]]) -> Result<Verb, LineFault>
    ensures { Gives result (arena_verb_of word.now (map (λ w. w.now) arguments.now)) }
{
    if is(word, "reset") {
        Ok(Verb::Reset(only_index(arguments)?))
    } else if is(word, "destroy") {
        Ok(Verb::Destroy(only_index(arguments)?))
    } else if is(word, "create") {
        Ok(Verb::Create(only_box(arguments)?))
    } else if is(word, "arena") {
        Ok(Verb::Bind(only_index(arguments)?))
    } else {
        client_verb(alloc, word, arguments)
    }
}

#[tactic(auto, unfolding(crate::specs::Verbs::client_verb_of))]
fn client_verb(alloc: Global, word: &[u8], arguments: &[&[u8]]) -> Result<Verb, LineFault>
    ensures { Gives result (client_verb_of word.now (map (λ w. w.now) arguments.now)) }
{
    if is(word, "cache") {
        cache(arguments)
    } else if is(word, "flush") {
        nothing(arguments)?;
        Ok(Verb::Flush)
    } else if is(word, "ctl") {
        control_call(alloc, arguments)
    } else {
        slot_verb(alloc, word, arguments)
    }
}

/// A call in an explicit cache.
#[tactic(auto, unfolding(crate::specs::Verbs::slot_verb_of))]
fn slot_verb(alloc: Global, word: &[u8], arguments: &[&[u8]]) -> Result<Verb, LineFault>
    ensures { Gives result (slot_verb_of word.now (map (λ w. w.now) arguments.now)) }
{
    if is(word, "mallocx") {
        malloc_in(alloc, arguments)
    } else if is(word, "freex") {
        free_in(alloc, arguments)
    } else {
        Err(LineFault::Words)
    }
}

/// Nothing: no word is left.
#[tactic(auto, unfolding(crate::specs::Verbs::nothing_of))]
pub fn nothing(words: &[&[u8]]) -> Result<(), LineFault>
    ensures { result ≡ nothing_of (map (λ w. w.now) words.now) }
{
    match words {
        [] => Ok(()),
        _ => Err(LineFault::Words),
    }
}

/// A name and a size in bytes.
#[tactic(auto, unfolding(crate::specs::Verbs::named_size_of), using(crate::proofs::Causes::both_gives))]
fn named_size(alloc: Global, arguments: &[&[u8]]) -> Result<(Name, u64), LineFault>
    ensures { Gives result (named_size_of (map (λ w. w.now) arguments.now)) }
{
    match arguments {
        [region, bytes] => both_parts(name(alloc, region), decimal(bytes)),
        _ => Err(LineFault::Words),
    }
}

#[tactic(auto, unfolding(crate::specs::Verbs::memalign_of), using(crate::proofs::Causes::both_gives))]
fn memalign(alloc: Global, arguments: &[&[u8]]) -> Result<Verb, LineFault>
    ensures { Gives result (memalign_of (map (λ w. w.now) arguments.now)) }
{
    let [region, align, bytes] = arguments else {
        return Err(LineFault::Words);
    };
    let numbers = both_parts(decimal(align), decimal(bytes));
    let (name, (align, size)) = both_parts(name(alloc, region), numbers)?;
    Ok(Verb::Memalign { name, align, size })
}

#[tactic(auto, unfolding(crate::specs::Verbs::malloc_in_of), using(crate::proofs::Causes::both_gives))]
fn malloc_in(alloc: Global, arguments: &[&[u8]]) -> Result<Verb, LineFault>
    ensures { Gives result (malloc_in_of (map (λ w. w.now) arguments.now)) }
{
    let [region, bytes, slot] = arguments else {
        return Err(LineFault::Words);
    };
    let numbers = both_parts(decimal(bytes), index(slot));
    let (name, (size, slot)) = both_parts(name(alloc, region), numbers)?;
    Ok(Verb::MallocIn { name, size, slot })
}

#[tactic(auto, unfolding(crate::specs::Verbs::free_in_of), using(crate::proofs::Causes::both_gives))]
fn free_in(alloc: Global, arguments: &[&[u8]]) -> Result<Verb, LineFault>
    ensures { Gives result (free_in_of (map (λ w. w.now) arguments.now)) }
{
    let [region, slot] = arguments else {
        return Err(LineFault::Words);
    };
    let (region, slot) = both_parts(pointer(alloc, region), index(slot))?;
    Ok(Verb::FreeIn { region, slot })
}

#[inline(always)]
fn only_pointer(alloc: Global, arguments: &[&[u8]]) -> Result<Ptr, LineFault>
    ensures { Gives result (in_one pointer_of (map (λ w. w.now) arguments.now)) }
{
    match arguments {
        [region] => pointer(alloc, region),
        _ => Err(LineFault::Words),
    }
}

#[tactic(auto, using(crate::proofs::Shapes::pointers))]
fn pointer(alloc: Global, word: &[u8]) -> Result<Ptr, LineFault>
    ensures { Gives result (pointer_of word.now) }
{
    match word.strip_prefix(b"@".as_slice()) {
        Some(digits) => Ok(Ptr::At(address(digits)?)),
        None => Ok(Ptr::Name(name(alloc, word)?)),
    }
}

/// The index of an arena, with no word behind it.
pub fn only_index(arguments: &[&[u8]]) -> Result<u32, LineFault>
    ensures { result ≡ in_one index_of (map (λ w. w.now) arguments.now) }
{
    match arguments {
        [arena] => index(arena),
        _ => Err(LineFault::Words),
    }
}

fn only_box(arguments: &[&[u8]]) -> Result<u32, LineFault>
    ensures { result ≡ in_one box_of (map (λ w. w.now) arguments.now) }
{
    match arguments {
        [box_no] => box_number(box_no),
        _ => Err(LineFault::Words),
    }
}

#[tactic(auto, unfolding(crate::specs::Verbs::decay_time_of), using(crate::proofs::Causes::both_gives))]
fn decay_time(rest: Rest, arguments: &[&[u8]]) -> Result<Verb, LineFault>
    ensures { Gives result (decay_time_of rest (map (λ w. w.now) arguments.now)) }
{
    let [arena, ms] = arguments else {
        return Err(LineFault::Words);
    };
    let (arena, ms) = both_parts(index(arena), time(ms))?;
    Ok(Verb::Time { arena, rest, ms })
}

fn cache(arguments: &[&[u8]]) -> Result<Verb, LineFault>
    ensures { result ≡ in_one switch_of (map (λ w. w.now) arguments.now) }
{
    match arguments {
        [switch] => cache_switch(switch),
        _ => Err(LineFault::Words),
    }
}

#[tactic(auto, unfolding(crate::specs::Verbs::switch_of))]
fn cache_switch(word: &[u8]) -> Result<Verb, LineFault>
    ensures { result ≡ switch_of word.now }
{
    if is(word, "on") {
        Ok(Verb::Cache(true))
    } else if is(word, "off") {
        Ok(Verb::Cache(false))
    } else {
        Err(LineFault::Words)
    }
}

#[tactic(auto, unfolding(crate::specs::Verbs::control_call_of), using(crate::proofs::Causes::both_gives))]
fn control_call(alloc: Global, arguments: &[&[u8]]) -> Result<Verb, LineFault>
    ensures { Gives result (control_call_of (map (λ w. w.now) arguments.now)) }
{
    match arguments {
        [name] => Ok(Verb::CtlPlain(control(alloc, name)?)),
        [name, b"=", value] => {
            let (name, value) = both_parts(control(alloc, name), written(alloc, value))?;
            Ok(Verb::CtlWrite { name, value })
        }
        _ => Err(LineFault::Words),
    }
}
