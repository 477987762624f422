//! What the calls of a CPU and of a system over plain levels are in the definition of a script (`cyc_model`). The functions here
//! do nothing: each one's contract is a law.
#![tactic(auto)]

mod cpu_laws;

ghost use Rattle.std.specs.Prelude.{◌≡◌, ℕ, ◌+◌, List, [], ◌∷◌, ◌++◌, length, Option, Some, None, true, false, ◌<◌, Result, Ok};
ghost use Rattle.std.specs.Prelude.{Err};
ghost use Rattle.cyc_types.specs.declared.moment.When.{When};
ghost use Rattle.cyc_types.specs.declared.refusal.JuggleReport.{JuggleReport};
ghost use Rattle.cyc_types.specs.declared.refusal.Refusal.{Refusal};
ghost use Rattle.cyc_types.specs.declared.refusal.Refusal.TheVariants as why;
ghost use Rattle.cyc_types.specs.Refusals.{number_of};
ghost use Rattle.cyc_text.specs.Lines.{accepted, refused, cyclics_left, moved};
ghost use Rattle.cyc_core.specs.Tables.{Tables};
ghost use Rattle.cyc_soft.specs.declared.Ran.{Ran};
ghost use Rattle.cyc_cpu.specs.Fired.{Fired};
ghost use Rattle.cyc_cpu.specs.FireRefused.{FireRefused};
ghost use Rattle.cyc_cpu.specs.Soft.{raise_tables, fires, Interrupts};
ghost use Rattle.cyc_cpu.specs.Calls.{no_interrupts};
ghost use Rattle.cyc_script.specs.declared.step.Add.{Add as AddStep};
ghost use Rattle.cyc_script.specs.declared.step.Bind.{Bind as BindStep};
ghost use Rattle.cyc_script.specs.declared.step.Omni.{Omni as OmniStep};
ghost use Rattle.cyc_script.specs.declared.step.Reprogram.{Reprogram as ReprogramStep};
ghost use Rattle.cyc_script.specs.declared.step.Softint.{Softint as SoftintStep};
ghost use Rattle.cyc_script.specs.declared.step.Step.TheVariants as steps;
ghost use Rattle.cyc_system.specs.declared.system.SoftFault.{SoftFault};
ghost use Rattle.cyc_system.specs.declared.system.SoftFault.TheVariants as fault;
ghost use Rattle.cyc_system.specs.System.{SystemView, RunningSystem, is_online};
ghost use Rattle.cyc_system.specs.Agreement.{Agrees, most_on};
ghost use Rattle.cyc_system.specs.Calls.{SystemCall, Changes, Does, Add, AddOmni, Bind, BeginRemove, PollRemove, AskTotals};
ghost use Rattle.cyc_system.specs.Calls.{Juggle, Offline, Online, FireOne, SoftInterrupt, Suspend, Resume, no_fire, reprograms};
ghost use Rattle.cyc_agreement.specs.Suspending.{is_suspended};
ghost use Rattle.cyc_model.specs.State.{State, each};
ghost use Rattle.cyc_model.specs.Places.{id_of, is_no_cyclic};
ghost use Rattle.cyc_types.specs.Reasons.{first_refusal};
ghost use Rattle.cyc_model.specs.Refusals.{is_no_cpu, cpu_is_offline};
ghost use Rattle.cyc_model.specs.Script.{start};
ghost use Rattle.cyc_model.specs.Softint.{softint_refusal};
ghost use Rattle.cyc_types.specs.declared.receipt.Receipt.{Receipt};
ghost use Rattle.cyc_system.specs.SystemRemoval.TheVariants as removal;
ghost use Rattle.cyc_system.specs.SystemTotals.{SystemTotals};
ghost use Rattle.cyc_model.specs.Softint.{interrupt, text_of_id, poll_id, leaving_ids};
ghost use Rattle.cyc_model.specs.Report.{counts_of};
ghost use Rattle.cyc_model.specs.Questions.{plain};
ghost use Rattle.cyc_system_model.specs.Removal.{told_by_receipt, told_in, polled_line, IsRemovedAtOnce, IsKept};
ghost use Rattle.cyc_system_model.specs.Removal.{HavePolled, leaving_in};
ghost use Rattle.cyc_system_model.specs.Removal.{IsInterrupted};
ghost use Rattle.cyc_system_model.specs.Room.{HaveRoomFor};
ghost use Rattle.cyc_system_model.specs.Shown.{ShowsSystem, IsSystem};
ghost use Rattle.cyc_system_model.specs.Kept.{LevelsAreNew, new_system, LeavesMark};
ghost use Rattle.cyc_system_model.specs.Running.{IsFired, IsServed};
ghost use Rattle.cyc_system_model.specs.SystemAdvancing.{at_clock, fired_and_lost, HasFired, IsAdvanced};
ghost use Rattle.cyc_system_model.specs.SystemWords.{IsSeries, IsMoment, IsDone, IsDoneWith, IsRefusedFor, IsAtOnce};

pub use cpu_laws::{answers_law, here_law, tied_law};
use cyc_types::Calls;

/// The machine before the first step of a script shows a new system over as many CPUs.
///
/// It does nothing when it runs: its clause is the law.
pub fn begin_law()
    ensures { (most ceiling names : ℕ) (ends : List (Tables × Tables)) → LevelsAreNew ceiling ends → Agrees (new_system most ends)
        → IsSystem (new_system most ends) × ShowsSystem (start (length ends) ceiling names) (new_system most ends) }
{}

/// Each call of a system, also a fire or a soft interrupt that was refused or stopped, keeps what the laws here ask of a system
/// beside what each system's own law says of it; each CPU's bound on the expirations of a cyclic; on each CPU the memory for so
/// many cyclics; and, but for a suspend and a resume, whether the system is suspended.
///
/// It does nothing when it runs: its clauses are the law.
pub fn kept_law<C: Calls>()
    ensures system { (call : SystemCall) (s t : RunningSystem C Tables)
        → Does C.Calls raise_tables (Interrupts C.Calls) s call t
        → IsSystem s.system → Agrees t.system → IsSystem t.system }
    ensures most { (call : SystemCall) (s t : RunningSystem C Tables)
        → Does C.Calls raise_tables (Interrupts C.Calls) s call t
        → IsSystem s.system → (n : ℕ) → most_on n t.system.cpus ≡ most_on n s.system.cpus }
    ensures room { (call : SystemCall) (s t : RunningSystem C Tables)
        → Does C.Calls raise_tables (Interrupts C.Calls) s call t
        → IsSystem s.system → (wanted : ℕ) → HaveRoomFor wanted s.system.cpus → HaveRoomFor wanted t.system.cpus }
    ensures suspended { (call : SystemCall) (s t : RunningSystem C Tables)
        → Does C.Calls raise_tables (Interrupts C.Calls) s call t
        → LeavesMark call → is_suspended t.system ≡ is_suspended s.system }
{}

/// An `add` of a system is the word `add`: it gives the next id, and puts the cyclic where the definition puts it; or both are
/// refused, for one reason.
///
/// It does nothing when it runs: its clauses are the law.
pub fn add_law()
    ensures accepted { (a : AddStep) (series : When) (id : ℕ) (s : State) (v w : SystemView Tables) → IsSystem v → ShowsSystem s v
        → IsSeries a.start a.interval series → Changes raise_tables v (Add a.level series s.clock (Ok id)) w
        → (id ≡ s.last_id + 1) × IsDone (steps.Add a) s w }
    ensures refused { (a : AddStep) (series : When) (e : Refusal) (s : State) (v w : SystemView Tables) → IsSystem v
        → ShowsSystem s v
        → IsSeries a.start a.interval series → Changes raise_tables v (Add a.level series s.clock (Err e)) w
        → IsRefusedFor e (steps.Add a) s w }
{}

/// An `add_omni` of a system is the word `omni`: it gives the next id, and puts a component on each online CPU, where the
/// definition puts them; or both are refused, for one reason.
///
/// It does nothing when it runs: its clauses are the law.
pub fn omni_law()
    ensures accepted { (a : OmniStep) (series : When) (id : ℕ) (s : State) (v w : SystemView Tables) → IsSystem v
        → ShowsSystem s v
        → IsSeries a.start a.interval series → Changes raise_tables v (AddOmni a.level series a.skew s.clock (Ok id)) w
        → (id ≡ s.last_id + 1) × IsDone (steps.Omni a) s w }
    ensures refused { (a : OmniStep) (series : When) (e : Refusal) (s : State) (v w : SystemView Tables) → IsSystem v
        → ShowsSystem s v
        → IsSeries a.start a.interval series → Changes raise_tables v (AddOmni a.level series a.skew s.clock (Err e)) w
        → IsRefusedFor e (steps.Omni a) s w }
{}

/// A `reprogram` of a system, or its `reprogram_on` of the CPU that a step names, is the word `reprogram`: the cyclic, or the
/// component, gets the moment there; or both are refused, for one reason.
///
/// It does nothing when it runs: its clauses are the law.
pub fn reprogram_law()
    ensures accepted { (r : ReprogramStep) (moment : ℕ) (s : State) (v w : SystemView Tables) → IsSystem v → ShowsSystem s v
        → IsMoment r.moment moment → Changes raise_tables v (reprograms r.cpu (id_of r.name s) moment (Ok tt)) w
        → IsDone (steps.Reprogram r) s w }
    ensures refused { (r : ReprogramStep) (moment : ℕ) (e : Refusal) (s : State) (v w : SystemView Tables) → IsSystem v
        → ShowsSystem s v → IsMoment r.moment moment
        → Changes raise_tables v (reprograms r.cpu (id_of r.name s) moment (Err e)) w
        → IsRefusedFor e (steps.Reprogram r) s w }
{}

/// A `bind` of a system to a CPU is the word `bind`: the cyclic moves there where it is not there, and is bound; or both are
/// refused, for one reason.
///
/// It does nothing when it runs: its clauses are the law.
pub fn bind_law()
    ensures accepted { (b : BindStep) (s : State) (v w : SystemView Tables) → IsSystem v → ShowsSystem s v
        → Changes raise_tables v (Bind (id_of b.name s) (Some b.cpu) (Ok tt)) w → IsDone (steps.Bind b) s w }
    ensures refused { (b : BindStep) (e : Refusal) (s : State) (v w : SystemView Tables) → IsSystem v → ShowsSystem s v
        → Changes raise_tables v (Bind (id_of b.name s) (Some b.cpu) (Err e)) w → IsRefusedFor e (steps.Bind b) s w }
{}

/// A `bind` of a system with no CPU is the word `unbind`: the cyclic may be moved from now on; or both are refused, for one
/// reason.
///
/// It does nothing when it runs: its clauses are the law.
pub fn unbind_law()
    ensures accepted { (name : ℕ) (s : State) (v w : SystemView Tables) → IsSystem v → ShowsSystem s v
        → Changes raise_tables v (Bind (id_of name s) None (Ok tt)) w → IsDone (steps.Unbind name) s w }
    ensures refused { (name : ℕ) (e : Refusal) (s : State) (v w : SystemView Tables) → IsSystem v → ShowsSystem s v
        → Changes raise_tables v (Bind (id_of name s) None (Err e)) w → IsRefusedFor e (steps.Unbind name) s w }
{}

/// The beginning of a removal is the word `remove`: it answers at once, with a receipt that tells what the definition has of the
/// cyclic, or waits for the calls that are kept; or both are refused, for one reason.
///
/// It does nothing when it runs: its clauses are the law.
pub fn remove_law()
    ensures answered { (name : ℕ) (receipt : Receipt) (s : State) (v w : SystemView Tables) → IsSystem v → ShowsSystem s v
        → Changes raise_tables v (BeginRemove (id_of name s) (Ok (removal.Done receipt))) w → IsRemovedAtOnce name receipt s w }
    ensures kept { (name waits : ℕ) (s : State) (v w : SystemView Tables) → IsSystem v → ShowsSystem s v
        → Changes raise_tables v (BeginRemove (id_of name s) (Ok (removal.Kept waits))) w → IsKept name waits s w }
    ensures refused { (name : ℕ) (e : Refusal) (s : State) (v w : SystemView Tables) → IsSystem v → ShowsSystem s v
        → Changes raise_tables v (BeginRemove (id_of name s) (Err e)) w → IsRefusedFor e (steps.Remove name) s w }
{}

/// An `online` of a system at the machine's clock is the word `online`: the CPU grows once, takes a component of each omnipresent
/// cyclic whose removal is not open, with the counts that were kept, and takes part again; or both are refused, for one reason.
///
/// It does nothing when it runs: its clauses are the law.
pub fn online_law()
    ensures accepted { (n : ℕ) (s : State) (v w : SystemView Tables) → IsSystem v → ShowsSystem s v
        → Changes raise_tables v (Online n s.clock (Ok tt)) w → IsDone (steps.Online n) s w }
    ensures refused { (n : ℕ) (e : Refusal) (s : State) (v w : SystemView Tables) → IsSystem v → ShowsSystem s v
        → Changes raise_tables v (Online n s.clock (Err e)) w → IsRefusedFor e (steps.Online n) s w }
{}

/// A `juggle` of a system whose CPUs have memory for as many cyclics as the system has is the word `juggle`: each cyclic of the
/// CPU that is not omnipresent has the turn that it has there, and goes where it goes there; and its report is what the word's
/// line tells. Or both are refused, for one reason.
///
/// It does nothing when it runs: its clauses are the law.
pub fn juggle_law()
    ensures accepted { (n : ℕ) (report : JuggleReport) (s : State) (v w : SystemView Tables) → IsSystem v → ShowsSystem s v
        → HaveRoomFor (length v.records) v.cpus → Changes raise_tables v (Juggle n (Ok report)) w
        → IsDoneWith (λ step. moved step report) (steps.Juggle n) s w }
    ensures refused { (n : ℕ) (e : Refusal) (s : State) (v w : SystemView Tables) → IsSystem v → ShowsSystem s v
        → Changes raise_tables v (Juggle n (Err e)) w → IsRefusedFor e (steps.Juggle n) s w }
{}

/// An `offline` of a system whose CPUs have memory for as many cyclics as the system has is the word `offline`: the cyclics of
/// the CPU have their turns; then it is refused where one is left that is not omnipresent, with the report of the turns, and then
/// where a component has calls outstanding, and what moved stays moved; or the components end, their counts are kept, and the CPU
/// takes no further part. Or both are refused before that, for one reason.
///
/// It does nothing when it runs: its clauses are the law.
pub fn offline_law()
    ensures accepted { (n : ℕ) (s : State) (v w : SystemView Tables) → IsSystem v → ShowsSystem s v
        → HaveRoomFor (length v.records) v.cpus → Changes raise_tables v (Offline n (Ok tt)) w
        → IsDoneWith accepted (steps.Offline n) s w }
    ensures left { (n : ℕ) (report : JuggleReport) (s : State) (v w : SystemView Tables) → IsSystem v → ShowsSystem s v
        → HaveRoomFor (length v.records) v.cpus → Changes raise_tables v (Offline n (Err (why.Left report))) w
        → IsDoneWith (λ step. cyclics_left step report) (steps.Offline n) s w }
    ensures pending { (n : ℕ) (s : State) (v w : SystemView Tables) → IsSystem v → ShowsSystem s v
        → HaveRoomFor (length v.records) v.cpus → Changes raise_tables v (Offline n (Err why.Pending)) w
        → IsDoneWith (λ step. refused step (number_of why.Pending)) (steps.Offline n) s w }
    ensures refused { (n : ℕ) (e : Refusal) (s : State) (v w : SystemView Tables) → IsSystem v → ShowsSystem s v → IsAtOnce e
        → Changes raise_tables v (Offline n (Err e)) w → IsRefusedFor e (steps.Offline n) s w }
{}

/// A `suspend` of a system is the word `suspend`, where the system is suspended as the definition's machine is: from now on it is
/// suspended, and nothing else changes; or both are refused, for one reason.
///
/// It does nothing when it runs: its clauses are the law.
pub fn suspend_law()
    ensures accepted { (s : State) (v w : SystemView Tables) → IsSystem v → ShowsSystem s v → s.suspended ≡ is_suspended v
        → Changes raise_tables v (Suspend (Ok tt)) w → IsDone steps.Suspend s w × (is_suspended w ≡ true) }
    ensures refused { (e : Refusal) (s : State) (v w : SystemView Tables) → IsSystem v → ShowsSystem s v
        → s.suspended ≡ is_suspended v
        → Changes raise_tables v (Suspend (Err e)) w → IsRefusedFor e steps.Suspend s w × (w ≡ v) }
{}

/// A `resume` of a system is the word `resume`, where the system is suspended as the definition's machine is: from now on it is
/// suspended no more, and nothing else changes; or both are refused, for one reason.
///
/// It does nothing when it runs: its clauses are the law.
pub fn resume_law()
    ensures accepted { (s : State) (v w : SystemView Tables) → IsSystem v → ShowsSystem s v → s.suspended ≡ is_suspended v
        → Changes raise_tables v (Resume (Ok tt)) w → IsDone steps.Resume s w × (is_suspended w ≡ false) }
    ensures refused { (e : Refusal) (s : State) (v w : SystemView Tables) → IsSystem v → ShowsSystem s v
        → s.suspended ≡ is_suspended v
        → Changes raise_tables v (Resume (Err e)) w → IsRefusedFor e steps.Resume s w × (w ≡ v) }
{}

/// A `fire_one` of a system that is not stopped is the definition's fire of that CPU, of which the word `advance` makes one for
/// each; or both are refused. On a suspended system no fire is made: each is refused, as the word is.
///
/// It does nothing when it runs: its clauses are the law.
pub fn fire_law<C: Calls>()
    ensures accepted { (n : ℕ) (fired : Fired) (m : State) (s t : RunningSystem C Tables) → IsSystem s.system
        → ShowsSystem m s.system
        → Does C.Calls raise_tables no_interrupts s (FireOne n m.clock (Ok fired)) t
        → IsFired C.count n fired m s t }
    ensures refused { (n now : ℕ) (e : Refusal) (answer : Result Fired FireRefused) (m : State) (s t : RunningSystem C Tables)
        → IsSystem s.system → ShowsSystem m s.system → first_refusal (is_no_cpu n m ∷ cpu_is_offline n m ∷ []) ≡ Some e
        → Does C.Calls raise_tables no_interrupts s (FireOne n now answer) t
        → (answer ≡ Err (no_fire e)) × (t ≡ s) }
    ensures suspended { (n now : ℕ) (answer : Result Fired FireRefused) (m : State) (s t : RunningSystem C Tables)
        → IsSystem s.system → ShowsSystem m s.system → first_refusal (is_no_cpu n m ∷ cpu_is_offline n m ∷ []) ≡ None
        → is_suspended s.system ≡ true
        → Does C.Calls raise_tables no_interrupts s (FireOne n now answer) t
        → (answer ≡ Err (no_fire why.Suspended)) × (t ≡ s) }
{}

/// The fires of all online CPUs, one after the other by rising number, are the word `advance`: the clock is set; each fire that
/// is made, and each CPU that is passed over because it is offline, comes one CPU further; and after the last CPU the system did
/// what the word does, with the sums of what the fires made and lost.
///
/// It does nothing when it runs: its clauses are the law.
pub fn advance_law<C: Calls>()
    ensures begins { (now : ℕ) (m : State) (s : RunningSystem C Tables) → ShowsSystem m s.system
        → HasFired C.count 0 (fired_and_lost 0 0) (at_clock now m) s s }
    ensures fires { (n expired lost : ℕ) (fired : Fired) (m : State) (s t u : RunningSystem C Tables) → IsSystem t.system
        → HasFired C.count n (fired_and_lost expired lost) m s t
        → Does C.Calls raise_tables no_interrupts t (FireOne n m.clock (Ok fired)) u
        → HasFired C.count (n + 1) (fired_and_lost (expired + fired.expired) (lost + fired.lost)) m s u }
    ensures passes { (n expired lost : ℕ) (m : State) (s t : RunningSystem C Tables) → IsSystem t.system → n < length m.cpus
        → HasFired C.count n (fired_and_lost expired lost) m s t → is_online n t.system.cpus ≡ false
        → HasFired C.count (n + 1) (fired_and_lost expired lost) m s t }
    ensures ends { (now n expired lost : ℕ) (m : State) (s t : RunningSystem C Tables) → n ≡ length m.cpus
        → HasFired C.count n (fired_and_lost expired lost) (at_clock now m) s t
        → IsAdvanced C.count now (fired_and_lost expired lost) m s t }
{}

/// A `softint` of a system that no handler stops is what the word `softint` does before it polls removals; or both are refused.
///
/// It does nothing when it runs: its clauses are the law.
pub fn softint_law<C: Calls>()
    ensures accepted { (i : SoftintStep) (ran : Ran) (m : State) (s t : RunningSystem C Tables) → IsSystem s.system
        → ShowsSystem m s.system → Does C.Calls raise_tables (Interrupts C.Calls) s
        (SoftInterrupt i.cpu i.level i.budget (Ok ran)) t → IsServed C.count i ran m s t }
    ensures refused { (i : SoftintStep) (e : Refusal) (answer : Result Ran SoftFault) (m : State) (s t : RunningSystem C Tables)
        → IsSystem s.system → ShowsSystem m s.system → softint_refusal i m ≡ Some e
        → Does C.Calls raise_tables (Interrupts C.Calls) s
        (SoftInterrupt i.cpu i.level i.budget answer) t → (answer ≡ Err fault.NoCpu) × (t ≡ s) }
{}

/// After a soft interrupt, the polls of the open removals by rising id are the rest of the word `softint`: each poll that is made
/// comes one removal further, and writes its line where it answers; after the last the system did what the word does.
///
/// It does nothing when it runs: its clauses are the law.
pub fn poll_law<C: Calls>()
    ensures begins { (texts : List (List ℕ)) (step : ℕ) (m : State) (v : SystemView Tables) → ShowsSystem m v
        → HavePolled texts step [] [] m v }
    ensures polls { (texts : List (List ℕ)) (step : ℕ) (ids lines : List ℕ) (id : ℕ) (answer : Option Receipt) (m : State)
        (v w : SystemView Tables) → IsSystem v → HavePolled texts step ids lines m v
        → Changes raise_tables v (PollRemove id (Ok answer)) w
        → HavePolled texts step (ids ++ id ∷ []) (lines ++ polled_line step (text_of_id id texts m.names) answer) m w }
    ensures counts { (texts : List (List ℕ)) (step : ℕ) (ids lines : List ℕ) (id : ℕ) (receipt : Receipt) (m : State)
        (v w : SystemView Tables) → IsSystem v → HavePolled texts step ids lines m v
        → Changes raise_tables v (PollRemove id (Ok (Some receipt))) w
        → counts_of id (each (poll_id plain texts step) (ids ++ id ∷ []) m).state ≡ told_by_receipt receipt (m.called id) }
    ensures leaving { (m : State) (v : SystemView Tables) → IsSystem v → ShowsSystem m v → leaving_ids m ≡ leaving_in v }
    ensures ends { (texts : List (List ℕ)) (step : ℕ) (i : SoftintStep) (ran : Ran) (lines : List ℕ) (m : State)
        (s t : RunningSystem C Tables) (w : SystemView Tables) → IsServed C.count i ran m s t
        → HavePolled texts step (leaving_ids (interrupt step i m).state) lines (interrupt step i m).state w
        → IsInterrupted C.count (record { texts = texts; step = step; asks = i; made = ran; lines = lines }) m s t w }
{}

/// What the totals of a system tell of an id is what the definition reports of it, over all CPUs and all stays, with the calls of
/// its handler; and they tell nothing where there is no such cyclic, or its removal has answered.
///
/// It does nothing when it runs: its clauses are the law.
pub fn report_law()
    ensures some { (id : ℕ) (totals : SystemTotals) (m : State) (v w : SystemView Tables) → IsSystem v → ShowsSystem m v
        → Changes raise_tables v (AskTotals id (Some totals)) w → ShowsSystem m w
        × (counts_of id m ≡ told_in totals (m.called id)) }
    ensures none { (id : ℕ) (m : State) (v w : SystemView Tables) → IsSystem v → ShowsSystem m v
        → Changes raise_tables v (AskTotals id None) w → (is_no_cyclic id m ≡ true) × (w ≡ v) }
{}
