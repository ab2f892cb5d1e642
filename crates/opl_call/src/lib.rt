//! The call of the program, as it is passed on to it. It stands in a crate of its own, so that wrong answers can be tried against its
//! contract without another proof of all that answers.
#![tactic(auto)]

ghost use Rattle.std.specs.Prelude.{◌≡◌, ◌⊎◌, IfSome, None, map, string_bytes};
ghost use Rattle.opl_files.specs.declared.refusal.Refusal.{Refusal};
ghost use Rattle.opl_files.specs.declared.stop.Stop.TheVariants as stops;
ghost use Rattle.opl_outside.specs.Becomes.{Becomes};
ghost use Rattle.opl_outside.specs.Counts.{Rose};
ghost use Rattle.opl_tool.specs.Headline.{CameThrough, ComesTo, Exactly, GainsMemoryLine, IsOutcome, IsRefused, Shows};
ghost use Rattle.opl_tool.specs.Judged.{Judged};
ghost use Rattle.opl_tool.specs.Lines.{GainsLine, refusal_text, stop_text};
ghost use Rattle.opl_tool.specs.Tasks.{Task, TaskFinds, task_text};
ghost use Rattle.opl_words.specs.Requests.{request};

use opl_outside::{Shelf, Sink};
pub use opl_tool::Answer;
use std::alloc::Global;

/// Carries out the call of the program with these words, its name not among them.
///
/// `solve MODEL DATA..` reads the files of these names from the shelf, any number of data files among them, and puts the
/// solutions of the model on `out`, each once and in lexicographic order, one piece a solution, and then the closing lines
/// as one piece. Of a model with an objective it puts the first of the best solutions, or with `--improving` each that is better
/// than all before it. With `--limit N` it stops at the Nth solution that it finds. With `--budget N` at most N choices are made, and
/// else 1,000,000; where one more is due, the solutions so far are the first ones, and the call is spent. `ground MODEL DATA..` puts
/// the text of the model's ground core as one piece, `generate KIND N SEED` the summary of a made model's search, and `help` a line
/// for each command. Every other call is refused. The line of a spent budget, of a refusal, of a fault or of want of memory is
/// put on `err` as one piece.
pub fn run<F: Shelf, O: Sink, E: Sink>(
    alloc: Global,
    words: &[String],
    shelf: &mut F,
    out: &mut O,
    err: &mut E,
) -> Answer
    // Which answer comes, where the shelf tells its files.
    ensures refused { let given = map (λ word. string_bytes word) words.now in
        IfSome (F.files shelf.old) (λ files. Exactly Answer.Refused (IsRefused given files) result) }
    ensures done { let given = map (λ word. string_bytes word) words.now in
        IfSome (F.files shelf.old) (λ files. Exactly Answer.Done (ComesTo given files Answer.Done) result) }
    ensures unsolved { let given = map (λ word. string_bytes word) words.now in
        IfSome (F.files shelf.old) (λ files. Exactly Answer.NoSolution (ComesTo given files Answer.NoSolution) result) }
    ensures spent { let given = map (λ word. string_bytes word) words.now in
        IfSome (F.files shelf.old) (λ files. Exactly Answer.Spent (ComesTo given files Answer.Spent) result) }

    // What is printed.
    ensures shown { let given = map (λ word. string_bytes word) words.now in
        IfSome (F.files shelf.old) (λ files. (task : Task) → Judged given files (Ok task) →
        Shows (O.written out.old) (O.written out.new) (task_text task) result) }
    ensures finds { let given = map (λ word. string_bytes word) words.now in
        IfSome (F.files shelf.old) (λ files. CameThrough result → (task : Task) → Judged given files (Ok task) → TaskFinds task) }
    ensures silent { let given = map (λ word. string_bytes word) words.now in
        IfSome (F.files shelf.old) (λ files. (refusal : Refusal) → Judged given files (Err refusal) →
        O.written out.new ≡ O.written out.old) }
    ensures line { let given = map (λ word. string_bytes word) words.now in
        IfSome (F.files shelf.old) (λ files. result ≡ Answer.Refused → (refusal : Refusal) × Judged given files (Err refusal) ×
        Becomes (E.written err.old) (E.written err.new) (GainsLine (E.faults err.old) (E.faults err.new) (refusal_text refusal given))) }

    // How the call ended, whatever the shelf tells.
    ensures outcome { let given = map (λ word. string_bytes word) words.now in
        IsOutcome given (record {
          files = F.files shelf.old;
          old = O.written out.old;
          new = O.written out.new;
          reads_before = F.read_faults shelf.old;
          reads_now = F.read_faults shelf.new;
          faults_before = O.faults out.old;
          faults_now = O.faults out.new;
        }) (E.written err.old) (E.written err.new) (E.faults err.old) (E.faults err.new) result }
    ensures words { let given = map (λ word. string_bytes word) words.now in request given ≡ None →
        (result ≡ Answer.Refused) ⊎ (result ≡ Answer.OutOfMemory) }
    ensures read { result ≡ Answer.ReadFault → Rose (F.read_faults shelf.old) (F.read_faults shelf.new) }
    ensures write { result ≡ Answer.WriteFault → Rose (O.faults out.old) (O.faults out.new) }
    ensures quiet { (result ≡ Answer.Done) ⊎ (result ≡ Answer.NoSolution) ⊎ (result ≡ Answer.Spent) ⊎ (result ≡ Answer.Refused) →
        (F.read_faults shelf.new ≡ F.read_faults shelf.old) × (O.faults out.new ≡ O.faults out.old) }
    ensures known { (result ≡ Answer.Done) ⊎ (result ≡ Answer.NoSolution) ⊎ (result ≡ Answer.Spent) ⊎ (result ≡ Answer.Refused)
        ⊎ (result ≡ Answer.ReadFault) ⊎ (result ≡ Answer.WriteFault) ⊎ (result ≡ Answer.OutOfMemory) }
    ensures spent_line { let given = map (λ word. string_bytes word) words.now in result ≡ Answer.Spent →
        Becomes (E.written err.old) (E.written err.new) (GainsLine (E.faults err.old) (E.faults err.new) (stop_text stops.Spent given)) }
    ensures read_line { let given = map (λ word. string_bytes word) words.now in result ≡ Answer.ReadFault →
        Becomes (E.written err.old) (E.written err.new) (GainsLine (E.faults err.old) (E.faults err.new) (stop_text stops.ReadFault given)) }
    ensures write_line { let given = map (λ word. string_bytes word) words.now in result ≡ Answer.WriteFault →
        Becomes (E.written err.old) (E.written err.new) (GainsLine (E.faults err.old) (E.faults err.new) (stop_text stops.WriteFault given)) }
    ensures memory_line { result ≡ Answer.OutOfMemory →
        Becomes (E.written err.old) (E.written err.new) (GainsMemoryLine (E.faults err.old) (E.faults err.new)) }
    ensures no_line { (result ≡ Answer.Done) ⊎ (result ≡ Answer.NoSolution) → err.new ≡ err.old }
    ensures no_write { F.write_faults shelf.new ≡ F.write_faults shelf.old }
    ensures files_stay { Becomes (F.files shelf.old) (F.files shelf.new) (λ before now. now ≡ before) }
{
    opl_tool::run(alloc, words, shelf, out, err)
}
