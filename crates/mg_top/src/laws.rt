//! What holds for every line of the table.
ghost use Rattle.std.specs.Prelude.{◌≡◌, ◌⊎◌, Option, None};
ghost use Rattle.mg_dev.specs.declared.fault.Fault.{Fault};
ghost use Rattle.mg_dev.specs.declared.fault.Fault.TheVariants.{Usage, Memory};
ghost use Rattle.mg_dev.specs.declared.status.Status.{Status};
ghost use Rattle.mg_dev.specs.declared.status.Status.TheVariants.{Done, Stopped};
ghost use Rattle.mg_args.specs.Tasks.{Task};
ghost use Rattle.mg_top.specs.Does.{Does};
ghost use Rattle.mg_top.specs.Ends.{EndsBy, SilentOnOutput, StopsByOutput};
ghost use Rattle.mg_dev.specs.Runs.{IfStopped, OutputFailed, Run, StoppedFor, Stops, StopsUnless};

/// Status 1 comes only where the words ask nothing.
pub fn usage_asks_nothing()
    ensures { (task : Option Task) (run : Run) → Does task run → Stops run Usage → task ≡ None }
{}

/// A run that lacks memory before it touched a device does what each tool promises.
pub fn lacking_runs_do_all()
    ensures { (task : Option Task) (run : Run) → Stops run Memory → run.store_now ≡ run.store →
        run.input_now ≡ run.input →
        run.out_now ≡ run.out → Does task run }
{}

/// What a run's status tells of its call: by this law all that a call's own promise says of a status
/// holds of the run. So it is with `Made` in `Built`, `MadeAnew` in `Migrated`, `Joined` in `Merged` and
/// `Finds` in `Checked`.
pub fn runs_end_by_their_call()
    // At status 0 the call was done.
    ensures done { (call : Status) (run : Run) → EndsBy call run → run.status ≡ Done → call ≡ Done }
    // At another status the call stopped for the same fault, or it was done and the output is why.
    ensures stopped { (call : Status) (run : Run) (fault : Fault) → EndsBy call run →
        Stops run fault →
        (call ≡ Stopped fault) ⊎ ((call ≡ Done) × StopsByOutput run fault) }
    // A refusal that the call owes is the run's.
    ensures refused { (call : Status) (run : Run) (fault : Fault) → EndsBy call run →
        StoppedFor call fault → StopsUnless run fault }
    // Where the call is done but for memory, the run is too, unless the output fails.
    ensures complete { (call : Status) (run : Run) → EndsBy call run →
        (call ≡ Done) ⊎ (call ≡ Stopped Memory) →
        ¬ OutputFailed run → (run.status ≡ Done) ⊎ Stops run Memory }
    // Nothing is printed but at status 0 and 4, and at 12 where the output lacked memory.
    ensures silent { (call : Status) (run : Run) → EndsBy call run →
        IfStopped run.status (SilentOnOutput run) }
{}
