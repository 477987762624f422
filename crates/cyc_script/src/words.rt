//! The thirteen words of a step.

ghost use Rattle.std.specs.Prelude.{◌≡◌, ℕ, ◌<◌, ◌^◌, length, map, option_map, IfOk};
ghost use Rattle.serde_json.specs.Data.{array};
ghost use Rattle.serde_json.specs.View.{items_of};
ghost use Rattle.cyc_script.specs.Answers.{Gives};
ghost use Rattle.cyc_script.specs.Parts.{data_of};
ghost use Rattle.cyc_script.specs.Steps.{Fits, Reads, step_of};
ghost use Rattle.cyc_script.specs.Words.{add_of, omni_of, bind_of, unbind_of, reprogram_of, remove_of, advance_of, softint_of};
ghost use Rattle.cyc_script.specs.Words.{cyclic_in_word, form_of, form_of_items, last_form_of, later_form_of, nameless, only_cpu};
ghost use Rattle.cyc_script.specs.Words.{optional_cpu, reprogram_with, without_parameters};

use crate::cause::Cause;
use crate::context::Context;
use crate::parameters;
use crate::part::Part;
use crate::step::{Add, Bind, Omni, Reprogram, Softint, Step};
use cyc_types::Level;
use std::alloc::Global;

/// What `add` and `omni` say of a cyclic: the text of its name, its level, its start and its interval.
#[tactic(auto, unfolding(crate::specs::Words::cyclic_in_word))]
#[inline(always)]
fn cyclic<'a>(
    name: &Part<'a>,
    level: &Part<'_>,
    start: &Part<'_>,
    interval: &Part<'_>,
) -> Result<(&'a str, Level, i64, i64), Cause>
    ensures { Gives (λ c. (c.0.now, c.1, c.2, c.3)) result
        (cyclic_in_word (data_of name.now) (data_of level.now) (data_of start.now) (data_of interval.now)) }
{
    let text = parameters::name(name)?;
    let level = parameters::level(level)?;
    let start = parameters::whole(start)?;
    let interval = parameters::whole(interval)?;
    Ok((text, level, start, interval))
}

#[tactic(auto, unfolding(crate::specs::Words::add_of))]
fn add<'a>(alloc: Global, context: &mut Context<'a>, parts: &[Part<'a>]) -> Result<Step, Cause>
    requires { length context.old.names < 2 ^ 32 }
    ensures { Reads result context.old context.new (add_of (map data_of parts.now)) }
{
    let [name, level, start, interval] = parts else {
        return Err(Cause::Shape);
    };
    let (text, level, start, interval) = cyclic(name, level, start, interval)?;
    let name = context.names.introduce(alloc, text)?;
    Ok(Step::Add(Add {
        name,
        level,
        start,
        interval,
    }))
}

#[tactic(auto, unfolding(crate::specs::Words::omni_of))]
fn omni<'a>(alloc: Global, context: &mut Context<'a>, parts: &[Part<'a>]) -> Result<Step, Cause>
    requires { length context.old.names < 2 ^ 32 }
    ensures { Reads result context.old context.new (omni_of (map data_of parts.now)) }
{
    let [name, level, start, interval, skew] = parts else {
        return Err(Cause::Shape);
    };
    let (text, level, start, interval) = cyclic(name, level, start, interval)?;
    let skew = parameters::skew(skew)?;
    let name = context.names.introduce(alloc, text)?;
    Ok(Step::Omni(Omni {
        name,
        level,
        start,
        interval,
        skew,
    }))
}

#[tactic(auto, unfolding(crate::specs::Words::bind_of))]
fn bind(context: &Context<'_>, parts: &[Part<'_>]) -> Result<Step, Cause>
    ensures { Reads result context.now context.now (bind_of (map data_of parts.now)) }
{
    let [name, cpu] = parts else {
        return Err(Cause::Shape);
    };
    let text = parameters::name(name)?;
    let cpu = parameters::unsigned(cpu)?;
    let name = context.names.number(text)?;
    Ok(Step::Bind(Bind { name, cpu }))
}

#[tactic(auto, unfolding(crate::specs::Words::unbind_of))]
fn unbind(context: &Context<'_>, parts: &[Part<'_>]) -> Result<Step, Cause>
    ensures { Reads result context.now context.now (unbind_of (map data_of parts.now)) }
{
    let [name] = parts else {
        return Err(Cause::Shape);
    };
    let text = parameters::name(name)?;
    Ok(Step::Unbind(context.names.number(text)?))
}

/// The CPU that may be named.
#[inline(always)]
fn optional_cpu(cpu: Option<&Part<'_>>) -> Result<Option<u32>, Cause>
    ensures { result ≡ optional_cpu (option_map (λ cpu. data_of cpu.now) cpu.entry) }
{
    match cpu {
        Some(cpu) => Ok(Some(parameters::unsigned(cpu)?)),
        None => Ok(None),
    }
}

#[inline(always)]
fn reprogram_with(
    context: &Context<'_>,
    name: &Part<'_>,
    moment: &Part<'_>,
    cpu: Option<&Part<'_>>,
) -> Result<Step, Cause>
    ensures { Reads result context.now context.now
        (reprogram_with (data_of name.now) (data_of moment.now) (option_map (λ cpu. data_of cpu.now) cpu.entry)) }
{
    let text = parameters::name(name)?;
    let moment = parameters::whole(moment)?;
    let cpu = optional_cpu(cpu)?;
    let name = context.names.number(text)?;
    Ok(Step::Reprogram(Reprogram { name, moment, cpu }))
}

#[tactic(auto, unfolding(crate::specs::Words::reprogram_of))]
fn reprogram(context: &Context<'_>, parts: &[Part<'_>]) -> Result<Step, Cause>
    ensures { Reads result context.now context.now (reprogram_of (map data_of parts.now)) }
{
    match parts {
        [name, moment] => reprogram_with(context, name, moment, None),
        [name, moment, cpu] => reprogram_with(context, name, moment, Some(cpu)),
        _ => Err(Cause::Shape),
    }
}

#[tactic(auto, unfolding(crate::specs::Words::remove_of))]
fn remove(context: &Context<'_>, parts: &[Part<'_>]) -> Result<Step, Cause>
    ensures { Reads result context.now context.now (remove_of (map data_of parts.now)) }
{
    let [name] = parts else {
        return Err(Cause::Shape);
    };
    let text = parameters::name(name)?;
    Ok(Step::Remove(context.names.number(text)?))
}

#[tactic(auto, unfolding(crate::specs::Words::advance_of))]
fn advance(context: &mut Context<'_>, parts: &[Part<'_>]) -> Result<Step, Cause>
    ensures { Reads result context.old context.new (advance_of (map data_of parts.now)) }
{
    let [moment] = parts else {
        return Err(Cause::Shape);
    };
    let moment = parameters::moment(moment)?;
    if moment < context.moment {
        return Err(Cause::TimeBack);
    }
    context.moment = moment;
    Ok(Step::Advance(moment))
}

#[tactic(auto, unfolding(crate::specs::Words::softint_of))]
fn softint(context: &Context<'_>, parts: &[Part<'_>]) -> Result<Step, Cause>
    ensures { Reads result context.now context.now (softint_of (map data_of parts.now)) }
{
    let [cpu, level, budget] = parts else {
        return Err(Cause::Shape);
    };
    let cpu = parameters::unsigned(cpu)?;
    let level = parameters::soft(level)?;
    let budget = parameters::unsigned(budget)?;
    Ok(Step::Softint(Softint { cpu, level, budget }))
}

/// The CPU that is the only parameter.
#[tactic(auto, unfolding(crate::specs::Words::only_cpu))]
fn only_cpu(parts: &[Part<'_>]) -> Result<u32, Cause>
    ensures { result ≡ only_cpu (map data_of parts.now) }
{
    match parts {
        [cpu] => parameters::unsigned(cpu),
        _ => Err(Cause::Shape),
    }
}

/// The step of a word without parameters.
#[tactic(auto, unfolding(crate::specs::Words::without_parameters))]
fn without_parameters(step: Step, parts: &[Part<'_>]) -> Result<Step, Cause>
    ensures { Gives nameless result (without_parameters step (map data_of parts.now)) }
{
    match parts {
        [] => Ok(step),
        _ => Err(Cause::Shape),
    }
}

/// The step of one of the last five words, whose only parameter is a CPU or which have none.
#[tactic(auto, unfolding(crate::specs::Words::last_form_of))]
#[inline(always)]
fn step_of_last_word(word: &str, parts: &[Part<'_>]) -> Result<Step, Cause>
    ensures { Gives nameless result (last_form_of word.now (map data_of parts.now)) }
{
    match word {
        "juggle" => Ok(Step::Juggle(only_cpu(parts)?)),
        "offline" => Ok(Step::Offline(only_cpu(parts)?)),
        "online" => Ok(Step::Online(only_cpu(parts)?)),
        "suspend" => without_parameters(Step::Suspend, parts),
        "resume" => without_parameters(Step::Resume, parts),
        _ => Err(Cause::Shape),
    }
}

/// The step of a word that is none of the first four.
#[inline(always)]
fn step_of_later_word(
    context: &mut Context<'_>,
    word: &str,
    parts: &[Part<'_>],
) -> Result<Step, Cause>
    ensures { Reads result context.old context.new (later_form_of word.now (map data_of parts.now)) }
{
    match word {
        "reprogram" => reprogram(context, parts),
        "remove" => remove(context, parts),
        "advance" => advance(context, parts),
        "softint" => softint(context, parts),
        _ => step_of_last_word(word, parts),
    }
}

fn step_of_word<'a>(
    alloc: Global,
    context: &mut Context<'a>,
    word: &str,
    parts: &[Part<'a>],
) -> Result<Step, Cause>
    requires { length context.old.names < 2 ^ 32 }
    ensures { Reads result context.old context.new (form_of word.now (map data_of parts.now)) }
{
    match word {
        "add" => add(alloc, context, parts),
        "omni" => omni(alloc, context, parts),
        "bind" => bind(context, parts),
        "unbind" => unbind(context, parts),
        _ => step_of_later_word(context, word, parts),
    }
}

#[tactic(auto, unfolding(crate::specs::Words::form_of_items))]
fn step_of_items<'a>(
    alloc: Global,
    context: &mut Context<'a>,
    parts: &[Part<'a>],
) -> Result<Step, Cause>
    requires { length context.old.names < 2 ^ 32 }
    ensures { Reads result context.old context.new (form_of_items (map data_of parts.now)) }
{
    let [first, rest @ ..] = parts else {
        return Err(Cause::Shape);
    };
    let Some(word) = first.text() else {
        return Err(Cause::Shape);
    };
    step_of_word(alloc, context, word, rest)
}

/// Reads the step of these parts after those before it, and takes note of the name that it introduces or the moment that it
/// advances to. First its form is judged, then its name or its moment. Takes memory where it introduces a name.
#[tactic(auto, using(crate::proofs::Lists::list_of_items_of), unfolding(crate::specs::Steps::step_of, crate::specs::Words::form_of_value))]
pub(crate) fn read_step<'a>(
    alloc: Global,
    context: &mut Context<'a>,
    parts: &[Part<'a>],
) -> Result<Step, Cause>
    requires { length context.old.names < 2 ^ 32 }
    ensures reads { Gives (λ step. (step, context.new)) result
        (step_of context.old (array (items_of (map data_of parts.now)))) }
    ensures fits { IfOk result (λ step. Fits context.old step context.new) }
{
    step_of_items(alloc, context, parts)
}
