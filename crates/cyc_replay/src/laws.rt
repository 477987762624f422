//! What holds of every machine that the steps of a script led to.

ghost use Rattle.cyc_script.specs.declared.script.Script.{Script};
ghost use Rattle.cyc_model.specs.Script.{names_of};
ghost use Rattle.cyc_replay.specs.declared.machine.Machine.{Machine};
ghost use Rattle.cyc_replay.specs.Runs.{RunsTo};
ghost use Rattle.cyc_replay.specs.Replay.{HasReplayed};

/// The conservation theorem of the machine that all steps of a script led to, as `put_steps` says of its own: the machine's
/// cyclics got free indexes; at each soft level of each of its CPUs each event of its run was enabled when it happened, and the
/// level was lawful and conserved before the first of them, after each, and at the end; and so are the machine's own levels.
///
/// It does nothing when it runs: its clause is the law.
pub fn runs_are_sound()
    ensures { (script : Script) (m : Machine) → RunsTo script.cpus script.ceiling (names_of script) script.steps.items m
        → HasReplayed script m }
{}
