//! What a verb says with the words that follow it.
ghost use Rattle.std.specs.Prelude.{◌≡◌, length};
ghost use Rattle.std.specs.Option.{SomeIff};
ghost use Rattle.script.specs.Lines.{Tells, TakesBytes, first_of, word};
ghost use Rattle.script.specs.declared.command.Command.TheVariants as command;

use crate::command::{Choice, Command};
use crate::figures::{amount, floating, is_bytes, number, place, table, target, whole};
use crate::verb::Verb;
use recording::makes::Make;
use response::settings::Proposal;

// The command of a verb without further words.
fn alone<'a>(command: Command<'a>, words: &[&'a str]) -> Option<Command<'a>>
    ensures { SomeIff result (length words.now ≡ 0) command.entry }
{
    words.is_empty().then_some(command)
}

fn places<'a>(words: &[&'a str]) -> Option<Command<'a>>
    ensures { Tells Verb.Places words.now result }
{
    let [places] = *words else {
        return None;
    };
    Some(Command::Places(table(places)?))
}

// The six settings, each after its name, in this order.
fn settings<'a>(words: &[&'a str]) -> Option<Command<'a>>
    ensures { Tells Verb.Settings words.now result }
{
    let [
        "rate",
        rate,
        "reference",
        reference,
        "dead-band",
        dead_band,
        "switch",
        switch,
        "begin",
        begin,
        "end",
        end,
    ] = *words
    else {
        return None;
    };
    Some(Command::Settings(Proposal {
        rate: number(rate)?,
        reference_dip: number(reference)?,
        dead_band: number(dead_band)?,
        switch_dip: number(switch)?,
        base_begin: number(begin)?,
        base_end: number(end)?,
    }))
}

fn trial<'a>(words: &[&'a str]) -> Option<Command<'a>>
    ensures { Tells Verb.Trial words.now result }
{
    let [begin, end] = *words else {
        return None;
    };
    Some(Command::Trial(number(begin)?, number(end)?))
}

fn target_put<'a>(words: &[&'a str]) -> Option<Command<'a>>
    ensures { Tells Verb.TargetPut words.now result }
{
    let [time, power] = *words else {
        return None;
    };
    Some(Command::TargetPut(target(time, power)?))
}

fn target_amend<'a>(words: &[&'a str]) -> Option<Command<'a>>
    ensures { Tells Verb.TargetAmend words.now result }
{
    let [at, time, power] = *words else {
        return None;
    };
    Some(Command::TargetAmend(place(at)?, target(time, power)?))
}

fn target_strike<'a>(words: &[&'a str]) -> Option<Command<'a>>
    ensures { Tells Verb.TargetStrike words.now result }
{
    let [at] = *words else {
        return None;
    };
    Some(Command::TargetStrike(place(at)?))
}

fn put_whole<'a>(words: &[&'a str]) -> Option<Command<'a>>
    ensures { Tells Verb.PutWhole words.now result }
{
    let [time, frequency, power] = *words else {
        return None;
    };
    Some(Command::Put(whole(time, frequency, power)?))
}

fn put_floating<'a>(words: &[&'a str]) -> Option<Command<'a>>
    ensures { Tells Verb.PutFloating words.now result }
{
    let [time, frequency, power] = *words else {
        return None;
    };
    Some(Command::Put(floating(time, frequency, power)?))
}

fn amend_whole<'a>(words: &[&'a str]) -> Option<Command<'a>>
    ensures { Tells Verb.AmendWhole words.now result }
{
    let [at, time, frequency, power] = *words else {
        return None;
    };
    Some(Command::Amend(place(at)?, whole(time, frequency, power)?))
}

fn amend_floating<'a>(words: &[&'a str]) -> Option<Command<'a>>
    ensures { Tells Verb.AmendFloating words.now result }
{
    let [at, time, frequency, power] = *words else {
        return None;
    };
    Some(Command::Amend(place(at)?, floating(time, frequency, power)?))
}

// The bytes of a recording of either make: one word, or none for no bytes.
fn load<'a>(make: Make, words: &[&'a str]) -> Option<Command<'a>>
    ensures { SomeIff result (TakesBytes (length words.now) (word words.now)) (command.Load make (first_of words.now)) }
{
    match *words {
        [] => Some(Command::Load(make, None)),
        [bytes] if is_bytes(bytes) => Some(Command::Load(make, Some(bytes))),
        _ => None,
    }
}

fn strike<'a>(words: &[&'a str]) -> Option<Command<'a>>
    ensures { Tells Verb.Strike words.now result }
{
    let [at] = *words else {
        return None;
    };
    Some(Command::Strike(place(at)?))
}

fn deliver<'a>(words: &[&'a str]) -> Option<Command<'a>>
    ensures { Tells Verb.Deliver words.now result }
{
    let [code, enabled] = *words else {
        return None;
    };
    Some(Command::Deliver(code, amount(enabled)?))
}

// The command of a verb with its words, or none if the words do not fit.
pub(crate) fn said<'a>(verb: Verb, words: &[&'a str]) -> Option<Command<'a>>
    ensures { Tells verb words.now result }
{
    match verb {
        Verb::New => alone(Command::New, words),
        Verb::Places => places(words),
        Verb::Settings => settings(words),
        Verb::Trial => trial(words),
        Verb::TrialEnd => alone(Command::TrialEnd, words),
        Verb::TargetTable => alone(Command::TargetTable, words),
        Verb::TargetPut => target_put(words),
        Verb::TargetAmend => target_amend(words),
        Verb::TargetStrike => target_strike(words),
        Verb::RuleVariable => alone(Command::Rule(Choice::Variable), words),
        Verb::RuleSwitching => alone(Command::Rule(Choice::Switching), words),
        Verb::PutWhole => put_whole(words),
        Verb::PutFloating => put_floating(words),
        Verb::AmendWhole => amend_whole(words),
        Verb::AmendFloating => amend_floating(words),
        Verb::LoadWhole => load(Make::Whole, words),
        Verb::LoadFloating => load(Make::Floating, words),
        Verb::Strike => strike(words),
        Verb::Close => alone(Command::Close, words),
        Verb::Deliver => deliver(words),
        Verb::Reopen => alone(Command::Reopen, words),
    }
}
