ghost use Rattle.std.specs.Prelude.{◌≡◌, ◌≢◌, ◌⊎◌, ◌<◌, ◌≤◌, ◌+◌, ◌*◌, ◌^◌, List, ℕ, [], ◌∷◌, map, codes};
ghost use Rattle.std.specs.Prelude.{decimal, string_bytes};
ghost use Rattle.std.specs.Io.KnownBytes.{IsAtEnd};
ghost use Rattle.std.specs.List.{flat_map};
ghost use Rattle.lsvd_base.specs.declared.geometry.Geometry.{Geometry};
ghost use Rattle.command_line.specs.Check.{AreValidToCheck, check_value};
ghost use Rattle.command_line.specs.Collect.{AreValidToCollect, collect_value};
ghost use Rattle.command_line.specs.CommandLine.{IsFaulty, Spells, replay, create, serve, collect, check};
ghost use Rattle.command_line.specs.CommandLine.{churn};
ghost use Rattle.command_line.specs.Create.{AreValid, HasBadUuid, value_in};
ghost use Rattle.command_line.specs.Options.{Given, option_words};
ghost use Rattle.command_line.specs.Serve.{AreValidToServe, serve_value};
ghost use Rattle.command_line.specs.Values.{IsNoUuid};
ghost use Rattle.volume_commands.specs.Report.{status_of, line_of, IsTold};
ghost use Rattle.lsvd_fault.specs.Faults.{CountsOne};
ghost use Rattle.volume_commands.specs.World.{CountsNone, CountsOneOf};
ghost use Rattle.command_run.specs.Run.{AreWordsRefused, CountsOneOfAll, Reaches, Runs, report_of};
ghost use Rattle.command_run.specs.Run.{report_of_churn};
ghost use Rattle.volume_commands.specs.World.{IsConstant};
ghost use Rattle.volume_server.specs.Serving.{listener_told, link_told};

use command_line::{CommandLineError, Request, request_of};
use std::alloc::Global;
use vol_replay::{ChurnOutcome, Outcome, churn, replay};
use volume_commands::{Report, World, answer_check, answer_collect, answer_create, answer_serve};

/// Runs the program on the words after its name, and answers its exit status.
///
/// `replay` reads a script from `input` and writes its transcript to `out`. `create` makes a volume in a
/// store and a disk that the world gives, and writes its uuid to `out`. `serve` serves one to the clients
/// that the world gives, and writes to `out` what it found when they can connect, and what stands at the end.
/// `collect` collects one, and writes to `out` how much was copied and removed. `check` checks what the store
/// has of one, and writes to `out` what it found. `churn` runs a script that it generates on a volume in
/// memory, and writes its summary to `out`. A line on `err` tells each end but a good one and that of a check
/// that found something missing. Words that ask for help are faulty here: `answer_help` is asked first.
pub fn run<W: World>(
    alloc: Global,
    words: &[String],
    world: &mut W,
    input: &mut W::In,
    out: &mut W::Out,
    err: &mut W::Err,
) -> u8
    // 0: it is done. 3: a line is bad, or the volume is refused, or something of it is missing. 1 or 4: a
    // fault, or memory ran out. The output and the line on the error stream say so too. What stands at the
    // paths that the words name is what creating, serving, collecting and checking make of what stood there.
    ensures report { (report : Report) × (result ≡ status_of report)
        × IsTold (W.Err.contents err.old) (W.Err.contents err.new) (W.Err.faults err.old)
        (W.Err.faults err.new) (line_of report)
        × Runs (map string_bytes words.now) report (W.In.remaining input.old) (W.Out.contents out.old)
        (W.Out.contents out.new)
        × Reaches W.tells (λ disk. W.Disk.state disk) W.Store.Receipt.state
        (listener_told W.Clients.given W.Clients.closed W.Clients.faults)
        (λ clients. W.Clients.coming clients)
        (link_told W.Clients.Link.remaining W.Clients.Link.contents W.Clients.Link.held
        W.Clients.Link.Source.faults)
        (map string_bytes words.now) report (W.clients_at world.old)
        (record { disks = W.disk_at world.old; stores = W.store_at world.old })
        (record { disks = W.disk_at world.new; stores = W.store_at world.new })
        (W.Out.contents out.old) (W.Out.contents out.new) }

    // The input of a script was read to its end, and the world was asked for nothing. Creating, serving,
    // collecting and checking read no input.
    ensures end { Spells (map string_bytes words.now) replay → result ≡ 0
        → IsAtEnd (W.In.remaining input.new) }
    ensures replay_world { Spells (map string_bytes words.now) replay → world.new ≡ world.old }
    ensures create_input { (options : List Given) → Spells (map string_bytes words.now) (create options)
        → input.new ≡ input.old }
    ensures serve_input { (options : List Given) → Spells (map string_bytes words.now) (serve options)
        → input.new ≡ input.old }
    ensures collect_input { (options : List Given) → Spells (map string_bytes words.now) (collect options)
        → input.new ≡ input.old }
    ensures check_input { (options : List Given) → Spells (map string_bytes words.now) (check options)
        → input.new ≡ input.old }

    // A churn reads no input either, and asks the world for nothing.
    ensures churn_alone { (steps seed : List ℕ) → Spells (map string_bytes words.now) (churn steps seed)
        → (world.new ≡ world.old) × (input.new ≡ input.old) }

    // 2 is for words that are refused, so never for the one word `replay`, nor for `churn` with two numbers
    // in their limits, and for plain options of `create`, `serve`, `collect` or `check` only where a text is
    // no uuid, or a log of `create` is too short. Then nothing was read, written or made.
    ensures usage { result ≡ 2 → AreWordsRefused (map string_bytes words.now) }
    ensures replay { map string_bytes words.now ≡ codes "replay" ∷ [] → result ≢ 2 }
    ensures valid { (options : List Given) (sizes : Geometry) → AreValid options sizes
        → map string_bytes words.now ≡ codes "create" ∷ flat_map option_words options
        → result ≡ 2 → HasBadUuid (value_in options) ⊎ (sizes.log < 2 * (sizes.max_write + 1)) }
    ensures serve_valid { (options : List Given) → AreValidToServe options
        → map string_bytes words.now ≡ codes "serve" ∷ flat_map option_words options
        → result ≡ 2 → IsNoUuid (serve_value options) (codes "volume") }
    ensures collect_valid { (options : List Given) → AreValidToCollect options
        → map string_bytes words.now ≡ codes "collect" ∷ flat_map option_words options
        → result ≡ 2 → IsNoUuid (collect_value options) (codes "volume") }
    ensures check_valid { (options : List Given) → AreValidToCheck options
        → map string_bytes words.now ≡ codes "check" ∷ flat_map option_words options
        → result ≡ 2 → IsNoUuid (check_value options) (codes "volume") }
    ensures churn_valid { (steps seed : ℕ) → steps ≤ 1000000 → seed < 2 ^ 64
        → map string_bytes words.now ≡ codes "churn" ∷ decimal steps ∷ decimal seed ∷ [] → result ≢ 2 }
    ensures untouched { result ≡ 2 → (world.new ≡ world.old) × (input.new ≡ input.old) × (out.new ≡ out.old) }

    // Faulty words end with 2, or with 4 where memory ran out while they were judged, and nothing is run of
    // them.
    ensures faulty { IsFaulty (map string_bytes words.now)
        → ((result ≡ 2) ⊎ (result ≡ 4)) × (world.new ≡ world.old) × (input.new ≡ input.old)
        × (out.new ≡ out.old) }

    // 1 is for one call that failed, and every other status for none. A disk, a store and a listener that the
    // world gave end here; where they never count a fault, the call was one of the world, of the input or of
    // the output.
    ensures fault { result ≡ 1 → IsConstant (λ disk. (W.Disk.state disk).faults)
        → IsConstant (λ store. (W.Store.state store).faults)
        → IsConstant W.Clients.faults
        → CountsOneOfAll (W.faults world.old) (W.faults world.new) (W.In.faults input.old)
        (W.In.faults input.new) (W.Out.faults out.old) (W.Out.faults out.new) }
    ensures replay_fault { Spells (map string_bytes words.now) replay → result ≡ 1
        → CountsOneOf (W.In.faults input.old) (W.In.faults input.new) (W.Out.faults out.old)
        (W.Out.faults out.new) }
    ensures churn_fault { (steps seed : List ℕ) → Spells (map string_bytes words.now) (churn steps seed)
        → result ≡ 1 → CountsOne (W.Out.faults out.old) (W.Out.faults out.new) }
    ensures no_fault { result ≢ 1 → (W.faults world.new ≡ W.faults world.old)
        × CountsNone (W.In.faults input.old) (W.In.faults input.new) (W.Out.faults out.old)
        (W.Out.faults out.new) }
{
    let report = execute(alloc, words, world, input, out);
    report.tell(err);
    report.status()
}

// Does what the words ask for, and says how it ended.
fn execute<W: World>(
    alloc: Global,
    words: &[String],
    world: &mut W,
    input: &mut W::In,
    out: &mut W::Out,
) -> Report
    ensures output { Runs (map string_bytes words.now) result (W.In.remaining input.old)
        (W.Out.contents out.old) (W.Out.contents out.new) }
    ensures reaches { Reaches W.tells (λ disk. W.Disk.state disk) W.Store.Receipt.state
        (listener_told W.Clients.given W.Clients.closed W.Clients.faults)
        (λ clients. W.Clients.coming clients)
        (link_told W.Clients.Link.remaining W.Clients.Link.contents W.Clients.Link.held
        W.Clients.Link.Source.faults)
        (map string_bytes words.now) result (W.clients_at world.old)
        (record { disks = W.disk_at world.old; stores = W.store_at world.old })
        (record { disks = W.disk_at world.new; stores = W.store_at world.new })
        (W.Out.contents out.old) (W.Out.contents out.new) }
    ensures end { Spells (map string_bytes words.now) replay → result ≡ Report.Done
        → IsAtEnd (W.In.remaining input.new) }
    ensures replay_world { Spells (map string_bytes words.now) replay → world.new ≡ world.old }
    ensures create_input { (options : List Given) → Spells (map string_bytes words.now) (create options)
        → input.new ≡ input.old }
    ensures serve_input { (options : List Given) → Spells (map string_bytes words.now) (serve options)
        → input.new ≡ input.old }
    ensures collect_input { (options : List Given) → Spells (map string_bytes words.now) (collect options)
        → input.new ≡ input.old }
    ensures check_input { (options : List Given) → Spells (map string_bytes words.now) (check options)
        → input.new ≡ input.old }
    ensures churn_alone { (steps seed : List ℕ) → Spells (map string_bytes words.now) (churn steps seed)
        → (world.new ≡ world.old) × (input.new ≡ input.old) }
    ensures usage { result ≡ Report.Usage → AreWordsRefused (map string_bytes words.now) }
    ensures replay { map string_bytes words.now ≡ codes "replay" ∷ [] → result ≢ Report.Usage }
    ensures valid { (options : List Given) (sizes : Geometry) → AreValid options sizes
        → map string_bytes words.now ≡ codes "create" ∷ flat_map option_words options
        → result ≡ Report.Usage → HasBadUuid (value_in options) ⊎ (sizes.log < 2 * (sizes.max_write + 1)) }
    ensures serve_valid { (options : List Given) → AreValidToServe options
        → map string_bytes words.now ≡ codes "serve" ∷ flat_map option_words options
        → result ≡ Report.Usage → IsNoUuid (serve_value options) (codes "volume") }
    ensures collect_valid { (options : List Given) → AreValidToCollect options
        → map string_bytes words.now ≡ codes "collect" ∷ flat_map option_words options
        → result ≡ Report.Usage → IsNoUuid (collect_value options) (codes "volume") }
    ensures check_valid { (options : List Given) → AreValidToCheck options
        → map string_bytes words.now ≡ codes "check" ∷ flat_map option_words options
        → result ≡ Report.Usage → IsNoUuid (check_value options) (codes "volume") }
    ensures churn_valid { (steps seed : ℕ) → steps ≤ 1000000 → seed < 2 ^ 64
        → map string_bytes words.now ≡ codes "churn" ∷ decimal steps ∷ decimal seed ∷ []
        → result ≢ Report.Usage }
    ensures untouched { result ≡ Report.Usage → (world.new ≡ world.old) × (input.new ≡ input.old)
        × (out.new ≡ out.old) }
    ensures faulty { IsFaulty (map string_bytes words.now)
        → ((result ≡ Report.Usage) ⊎ (result ≡ Report.Memory)) × (world.new ≡ world.old)
        × (input.new ≡ input.old) × (out.new ≡ out.old) }
    ensures fault { result ≡ Report.Fault → IsConstant (λ disk. (W.Disk.state disk).faults)
        → IsConstant (λ store. (W.Store.state store).faults)
        → IsConstant W.Clients.faults
        → CountsOneOfAll (W.faults world.old) (W.faults world.new) (W.In.faults input.old)
        (W.In.faults input.new) (W.Out.faults out.old) (W.Out.faults out.new) }
    ensures replay_fault { Spells (map string_bytes words.now) replay → result ≡ Report.Fault
        → CountsOneOf (W.In.faults input.old) (W.In.faults input.new) (W.Out.faults out.old)
        (W.Out.faults out.new) }
    ensures churn_fault { (steps seed : List ℕ) → Spells (map string_bytes words.now) (churn steps seed)
        → result ≡ Report.Fault → CountsOne (W.Out.faults out.old) (W.Out.faults out.new) }
    ensures no_fault { result ≢ Report.Fault → (W.faults world.new ≡ W.faults world.old)
        × CountsNone (W.In.faults input.old) (W.In.faults input.new) (W.Out.faults out.old)
        (W.Out.faults out.new) }
{
    match request_of(alloc, words) {
        Ok(Request::Replay) => report_of(replay(alloc, input, out)),
        Ok(Request::Create(request)) => answer_create(alloc, &request, world, out),
        Ok(Request::Serve(request)) => answer_serve(alloc, &request, world, out),
        Ok(Request::Collect(request)) => answer_collect(alloc, &request, world, out),
        Ok(Request::Check(request)) => answer_check(alloc, &request, world, out),
        Ok(Request::Churn(request)) => {
            report_of_churn(churn(alloc, request.steps, request.seed, out))
        }
        Err(CommandLineError::Usage) => Report::Usage,
        Err(CommandLineError::OutOfMemory) => Report::Memory,
    }
}

// How an outcome is reported. The volume that a script left is let go.
fn report_of(outcome: Outcome) -> Report
    ensures { result ≡ report_of outcome }
{
    let report = told(&outcome);
    drop(outcome);
    report
}

// How an outcome is told.
fn told(outcome: &Outcome) -> Report
    ensures { result ≡ report_of outcome.now }
{
    match outcome {
        Outcome::Done(_) => Report::Done,
        Outcome::BadLine { number, reason } => Report::BadLine {
            number: *number,
            reason: *reason,
        },
        Outcome::ReadFault | Outcome::WriteFault => Report::Fault,
        Outcome::OutOfMemory => Report::Memory,
    }
}

// How the outcome of a churn is reported. The volume that it left is let go.
fn report_of_churn(outcome: ChurnOutcome) -> Report
    ensures { result ≡ report_of_churn outcome }
{
    match outcome {
        ChurnOutcome::Done(rig) => {
            drop(rig);
            Report::Done
        }
        ChurnOutcome::WriteFault => Report::Fault,
        ChurnOutcome::OutOfMemory => Report::Memory,
    }
}
