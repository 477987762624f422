//! The word that runs a soft interrupt, and then polls the open removals.

ghost use Rattle.std.specs.Prelude.{◌≡◌, ◌≢◌, ◌↔◌, ℕ, ◌<◌, ◌≤◌, ◌-◌, ◌^◌, ◌++◌, ◌∷◌, [], List, map, string_bytes, OnOk, IfErr};
ghost use Rattle.std.specs.Prelude.{IfNone, IfSome, IsTrue, length, Some, Ok};
ghost use Rattle.cyc_types.specs.declared.refusal.Refusal.TheVariants.{NoCpu};
ghost use Rattle.cyc_types.specs.Limits.{last_id};
ghost use Rattle.cyc_text.specs.Lines.{removed};
ghost use Rattle.cyc_script.specs.Limits.{most_steps};
ghost use Rattle.cyc_script.specs.declared.step.Softint.{Softint as SoftintStep};
ghost use Rattle.cyc_script.specs.declared.step.Step.TheVariants as steps;
ghost use Rattle.cyc_system.specs.System.{removal_on};
ghost use Rattle.cyc_model.specs.State.{State};
ghost use Rattle.cyc_model.specs.Softint.{interrupt, leaving_ids, softint_refusal, text_of_id};
ghost use Rattle.cyc_system_model.specs.Removal.{polled_line};
ghost use Rattle.cyc_text.specs.Status.{IsMemory};
ghost use Rattle.cyc_replay.specs.Machine.{ShowsMachine, IsReached, id_at, name_at};
ghost use Rattle.cyc_replay.specs.Words.{TakesWord};
ghost use Rattle.cyc_cpu.specs.Soft.{raise_tables};
ghost use Rattle.cyc_system.specs.Calls.{PollRemove};
ghost use Rattle.cyc_words.specs.Doing.{DoesCall, word_state};
ghost use Rattle.cyc_replay.specs.Interrupting.{HasInterrupted, polls_of, IsPolling};

use crate::lines::{name_text, write_answer};
use crate::machine::{Machine, id_in, name_of};
use cyc_agreement::others_law;
use cyc_core::LevelCore;
use cyc_script::Softint;
use cyc_soft::Ran;
use cyc_system::{SoftFault, System};
use cyc_system_model::{kept_law, poll_law, softint_law};
use cyc_text::{RunFault, write_ran};
use cyc_types::{CPUS, CyclicId, Receipt, Refusal, Soft, Tally};
use cyc_words::{Names, poll};
use std::alloc::AllocError;
use std::fmt::Write;

/// Makes the soft interrupt of one level of a CPU. The tally refuses no call. None where there is no such CPU.
fn serve_level(machine: &mut Machine, cpu: u32, level: Soft, budget: u32) -> Option<Ran>
    requires reached { (step : ℕ) × (s : State) × (step ≤ most_steps) × IsReached step s × ShowsMachine s machine.old }
    ensures none { IfNone result ((s : State) → ShowsMachine s machine.old
        → (softint_refusal (record { cpu = cpu; level = level; budget = budget }) s ≡ Some NoCpu) × ShowsMachine s machine.new) }
    ensures some { IfSome result (λ made. (step : ℕ) (s : State) → IsReached step s → ShowsMachine s machine.old
        → HasInterrupted step (record { cpu = cpu; level = level; budget = budget }) made s machine.old machine.new) }
{
    softint_law::<Tally>();
    kept_law::<Tally>();
    let answer = machine
        .system
        .softint(cpu, level, &mut machine.tally, budget);
    machine.system.law();
    match answer {
        Ok(ran) => Some(ran),
        Err(fault) => match fault {
            SoftFault::NoCpu => None,
            SoftFault::Refused(_) => unreachable!(),
        },
    }
}

/// The number of the id whose removal is open on a CPU, where it is above this one. The greatest number where there is none.
fn open_above(system: &System<LevelCore>, cpu: u32, above: u64) -> u64
    ensures here { result < 2 ^ 64 - 1 → (removal_on cpu system.now.cpus ≡ Some result) × (above < result) × (result ≤ last_id) }
    ensures least { (id : ℕ) → removal_on cpu system.now.cpus ≡ Some id → above < id → (result ≤ id) × (result ≤ last_id) }
{
    let Some(id) = system.removal(cpu) else {
        return u64::MAX;
    };
    let number = id.number();
    if number > above { number } else { u64::MAX }
}

/// The smallest number of an id above this one whose removal is open. The greatest number where there is none.
fn least_open(system: &System<LevelCore>, above: u64) -> u64
    ensures here { result < 2 ^ 64 - 1 → ((n : ℕ) × (removal_on n system.now.cpus ≡ Some result)) × (above < result)
        × (result ≤ last_id) }
    ensures least { (n id : ℕ) → removal_on n system.now.cpus ≡ Some id → above < id → (result ≤ id) × (result ≤ last_id) }
{
    system.law();
    let mut least = u64::MAX;
    for cpu in 0..CPUS {
        least = least.min(open_above(system, cpu, above));
    }
    least
}

/// The smallest id above this number whose removal is open.
fn next_open(system: &System<LevelCore>, above: u64) -> Option<CyclicId>
    ensures none { IfNone result ((n id : ℕ) → above < id → removal_on n system.now.cpus ≡ Some id → ⊥) }
    ensures some { IfSome result (λ next. (above < next) × ((n : ℕ) × (removal_on n system.now.cpus ≡ Some next))
        × ((n id : ℕ) → above < id → removal_on n system.now.cpus ≡ Some id → next ≤ id)) }
{
    CyclicId::new(least_open(system, above))
}

/// Whether the name has this id, or had it until its removal answered.
fn has_id(names: &Names, name: usize, id: CyclicId) -> bool
    ensures { IsTrue result ↔ (id_at names.now name ≡ Some id) }
{
    match id_in(names.at(name)) {
        Some(own) => own.number() == id.number(),
        None => false,
    }
}

/// The text of the name that has this id.
fn text_of<'a>(machine: &Machine, names: &'a [String], id: CyclicId) -> &'a str
    ensures { (s : State) → ShowsMachine s machine.now → result.now ≡ text_of_id id (map string_bytes names.now) s.names }
{
    let _number = id.number();
    let name = name_of(&machine.named, id);
    if has_id(&machine.names, name, id) {
        return name_text(names, name);
    }
    ""
}

/// The number of the name that has this id. As many as there are names where none has.
fn name_with(machine: &Machine, id: CyclicId) -> usize
    ensures here { id_at machine.now.names (name_at machine.now.named.items id) ≡ Some id
        → result ≡ name_at machine.now.named.items id }
    ensures other { (id_at machine.now.names (name_at machine.now.named.items id) ≡ Some id → ⊥)
        → result ≡ length machine.now.names }
{
    let name = name_of(&machine.named, id);
    if has_id(&machine.names, name, id) {
        name
    } else {
        machine.names.len()
    }
}

/// Polls the open removal of this id in the system. Where it answers, the name of this number has the receipt.
fn poll_named(
    system: &mut System<LevelCore>,
    names: &mut Names,
    name: usize,
    id: CyclicId,
) -> Option<Receipt>
    requires open { (n : ℕ) × (removal_on n system.old.cpus ≡ Some id) }
    ensures polled { DoesCall raise_tables name (PollRemove id (Ok result))
        (word_state system.old names.old) (word_state system.new names.new) }
    ensures others { (n k : ℕ) → k ≢ id → (removal_on n system.new.cpus ≡ Some k) ↔ (removal_on n system.old.cpus ≡ Some k) }
{
    others_law::<LevelCore>();
    match poll(system, names, name, id) {
        Ok(polled) => polled,
        Err(_) => unreachable!(),
    }
}

/// Polls the open removal of this id. Where it answers, the name that has the id has the receipt.
fn poll_removal(machine: &mut Machine, id: CyclicId) -> Option<Receipt>
    requires open { (n : ℕ) × (removal_on n machine.old.system.cpus ≡ Some id) }
    ensures polls { (texts : List (List ℕ)) (step : ℕ) (ids lines : List ℕ) (i : SoftintStep) (s : State)
        → IsPolling texts step (polls_of ids lines) i s machine.old
        → IsPolling texts step (polls_of (ids ++ id ∷ []) (lines ++ polled_line step (text_of_id id texts s.names) result))
        i s machine.new }
    ensures others { (n k : ℕ) → k ≢ id → (removal_on n machine.new.system.cpus ≡ Some k) ↔
        (removal_on n machine.old.system.cpus ≡ Some k) }
{
    poll_law::<Tally>();
    kept_law::<Tally>();
    let name = name_with(machine, id);
    poll_named(&mut machine.system, &mut machine.names, name, id)
}

/// Adds `STEP removed NAME CALLS` to the line: the removal has answered, with all its calls.
#[tactic(auto, unfolding(cyc_text::specs::Lines::removed))]
fn append_removed(line: &mut String, step: u32, name: &str, calls: u128) -> Result<(), AllocError>
    ensures { OnOk result (string_bytes line.new ≡ string_bytes line.old ++ removed step name.now calls) }
{
    write!(line, "{step} removed {name} {calls}\n")
}

/// Polls the open removal of this id. Where it answers its line is added.
fn poll_one(
    machine: &mut Machine,
    names: &[String],
    line: &mut String,
    step: u32,
    id: CyclicId,
) -> Result<(), AllocError>
    requires open { (n : ℕ) × (removal_on n machine.old.system.cpus ≡ Some id) }
    ensures polls { OnOk result ((ids lines : List ℕ) (i : SoftintStep) (s : State)
        → IsPolling (map string_bytes names.now) step (polls_of ids lines) i s machine.old
        → (more : List ℕ) × (string_bytes line.new ≡ string_bytes line.old ++ more)
        × IsPolling (map string_bytes names.now) step (polls_of (ids ++ id ∷ []) (lines ++ more)) i s machine.new) }
    ensures others { (n k : ℕ) → k ≢ id → (removal_on n machine.new.system.cpus ≡ Some k) ↔
        (removal_on n machine.old.system.cpus ≡ Some k) }
{
    let Some(receipt) = poll_removal(machine, id) else {
        return Ok(());
    };
    let text = text_of(machine, names, id);
    append_removed(line, step, text, receipt.calls())
}

/// Polls the open removals, by rising id. The line of each that answers is added.
fn poll_all(
    machine: &mut Machine,
    names: &[String],
    line: &mut String,
    step: u32,
) -> Result<(), AllocError>
    ensures polls { OnOk result ((i : SoftintStep) (s : State)
        → IsPolling (map string_bytes names.now) step (polls_of [] []) i s machine.old
        → (lines : List ℕ) × (string_bytes line.new ≡ string_bytes line.old ++ lines)
        × IsPolling (map string_bytes names.now) step (polls_of (leaving_ids (interrupt step i s).state) lines) i s machine.new) }
{
    let mut last: u64 = 0;
    while let Some(id) = next_open(&machine.system, last) {
        poll_one(machine, names, line, step, id)?;
        last = id.number();
    }
    Ok(())
}

/// The word `softint`: the soft interrupt of one level of a CPU, and then the polls of the open removals, by rising id, each that
/// answers with its line. It refuses with NoCpu where there is no such CPU.
pub fn take_softint(
    machine: &mut Machine,
    names: &[String],
    line: &mut String,
    step: u32,
    softint: &Softint,
) -> Result<(), RunFault>
    requires few { step ≤ most_steps }
    requires reached { (s : State) × IsReached step s × ShowsMachine s machine.old }
    ensures takes { OnOk result ((s : State) → IsReached step s → ShowsMachine s machine.old
        → TakesWord (map string_bytes names.now) step (steps.Softint softint.now) (string_bytes line.new) s machine.new) }
    ensures memory { IfErr result IsMemory }
{
    poll_law::<Tally>();
    let served = serve_level(machine, softint.cpu, softint.level, softint.budget);
    let Some(ran) = served else {
        return write_answer(line, step, Err(Refusal::NoCpu));
    };
    write_ran(line, step, ran.calls, ran.idle)?;
    poll_all(machine, names, line, step)?;
    Ok(())
}
