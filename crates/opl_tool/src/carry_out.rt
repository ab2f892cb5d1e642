//! Carrying out a call: reading its files and printing its text.
ghost use Rattle.std.specs.Prelude.{◌≡◌, ℕ, [], Option, map, string_bytes};
ghost use Rattle.opl_outside.specs.Becomes.{Becomes};
ghost use Rattle.opl_outside.specs.Files.{Files};
ghost use Rattle.opl_generate.specs.Texts.{model_text as the_model_text};
ghost use Rattle.opl_words.specs.Readings.{asked_of};
ghost use Rattle.opl_words.specs.Requests.Asked.{generate as asks_made};
ghost use Rattle.opl_words.specs.declared.call.Request.TheVariants as requests;
ghost use Rattle.opl_files.specs.Reading.{Read, front_of};
ghost use Rattle.opl_files.specs.Stage.{Gives};
ghost use Rattle.opl_tool.specs.Ends.{Ends};
ghost use Rattle.opl_tool.specs.Judged.{Answered, Judged, Tasked};
ghost use Rattle.opl_tool.specs.Tasks.{task_of};
ghost use Rattle.opl_tool.specs.Tasks.Task.{summarizes};
ghost use Rattle.opl_tool.specs.Headline.{IsNoCall};

use crate::ended::Ended;
use crate::help::help_text;
use crate::printing::{print, print_summary, print_text};
use opl_files::{Front, Refusal, Stop, fetch, read};
use opl_generate::model_text;
use opl_outside::{Shelf, Sink};
use opl_prepare::prepare;
use opl_words::{Command, FilesRequest, Generated, Request, request};
use std::alloc::Global;

/// The most bytes of a text that is read.
const MOST_BYTES: usize = 16_777_216;

/// Carries out a command over trees.
fn over_trees<O: Sink>(
    alloc: Global,
    command: Command,
    front: &Front,
    out: &mut O,
) -> Result<Ended, Stop>
    ensures { (files : Option Files) (reads later : ℕ) → later ≡ reads → Ends (λ told. Tasked (task_of command) (front.now.typed.tree, front.now.files)) (record {
      files = files;
      old = O.written out.old;
      new = O.written out.new;
      reads_before = reads;
      reads_now = later;
      faults_before = O.faults out.old;
      faults_now = O.faults out.new;
    }) result }
{
    let problem = prepare(alloc, front)?;
    print(alloc, out, command, &problem)
}

/// Carries out a command over files.
fn over_files<F: Shelf, O: Sink>(
    alloc: Global,
    asked: &FilesRequest<'_>,
    shelf: &mut F,
    out: &mut O,
) -> Result<Ended, Stop>
    ensures ends { Ends (λ files. Answered files (asked_of (requests.OverFiles asked.now))) (record {
      files = F.files shelf.old;
      old = O.written out.old;
      new = O.written out.new;
      reads_before = F.read_faults shelf.old;
      reads_now = F.read_faults shelf.new;
      faults_before = O.faults out.old;
      faults_now = O.faults out.new;
    }) result }
    ensures no_write { F.write_faults shelf.new ≡ F.write_faults shelf.old }
    ensures files_stay { Becomes (F.files shelf.old) (F.files shelf.new) (λ before now. now ≡ before) }
{
    let front = fetch(alloc, shelf, asked.model, asked.files.as_slice())?;
    let ended = over_trees(alloc, asked.command, &front, out);
    front.let_go();
    ended
}

/// The trees of a made model. A text beyond the bytes that are read counts as want of memory; none is so long.
fn made_front(alloc: Global, generated: Generated) -> Result<Front, Stop>
    ensures { Gives (Read (the_model_text generated) []) (front_of result) }
{
    let text = model_text(alloc, &generated)?;
    if text.len() > MOST_BYTES {
        return Err(Stop::OutOfMemory);
    }
    read(alloc, text.as_slice(), &[])
}

/// Searches a model with these trees, and prints the summary.
fn summarize_trees<O: Sink>(
    alloc: Global,
    generated: Generated,
    front: &Front,
    out: &mut O,
) -> Result<Ended, Stop>
    ensures { (files : Option Files) (reads : ℕ) → Ends (λ told. Tasked (summarizes generated) (front.now.typed.tree, front.now.files)) (record {
      files = files;
      old = O.written out.old;
      new = O.written out.new;
      reads_before = reads;
      reads_now = reads;
      faults_before = O.faults out.old;
      faults_now = O.faults out.new;
    }) result }
{
    let problem = prepare(alloc, front)?;
    print_summary(alloc, out, generated, &problem)
}

/// Searches a made model, and prints the summary.
fn summarize<O: Sink>(alloc: Global, generated: Generated, out: &mut O) -> Result<Ended, Stop>
    ensures { (files : Option Files) (reads : ℕ) → Ends (λ told. Answered told (asks_made generated)) (record {
      files = files;
      old = O.written out.old;
      new = O.written out.new;
      reads_before = reads;
      reads_now = reads;
      faults_before = O.faults out.old;
      faults_now = O.faults out.new;
    }) result }
{
    let front = made_front(alloc, generated)?;
    let ended = summarize_trees(alloc, generated, &front, out);
    front.let_go();
    ended
}

/// Carries out what is asked for.
fn answer<F: Shelf, O: Sink>(
    alloc: Global,
    asked: &Request<'_>,
    shelf: &mut F,
    out: &mut O,
) -> Result<Ended, Stop>
    ensures ends { Ends (λ files. Answered files (asked_of asked.now)) (record {
      files = F.files shelf.old;
      old = O.written out.old;
      new = O.written out.new;
      reads_before = F.read_faults shelf.old;
      reads_now = F.read_faults shelf.new;
      faults_before = O.faults out.old;
      faults_now = O.faults out.new;
    }) result }
    ensures no_write { F.write_faults shelf.new ≡ F.write_faults shelf.old }
    ensures files_stay { Becomes (F.files shelf.old) (F.files shelf.new) (λ before now. now ≡ before) }
{
    match asked {
        Request::OverFiles(asked) => over_files(alloc, asked, shelf, out),
        Request::Generate(generated) => summarize(alloc, *generated, out),
        Request::Help => print_text(alloc, out, help_text()),
    }
}

/// Carries out a call, and answers how it ended.
pub fn carry_out<F: Shelf, O: Sink>(
    alloc: Global,
    words: &[String],
    shelf: &mut F,
    out: &mut O,
) -> Result<Ended, Stop>
    ensures ends { Ends (Judged (map (λ word. string_bytes word) words.now)) (record {
      files = F.files shelf.old;
      old = O.written out.old;
      new = O.written out.new;
      reads_before = F.read_faults shelf.old;
      reads_now = F.read_faults shelf.new;
      faults_before = O.faults out.old;
      faults_now = O.faults out.new;
    }) result }
    ensures no_call { IsNoCall (map (λ word. string_bytes word) words.now) result }
    ensures no_write { F.write_faults shelf.new ≡ F.write_faults shelf.old }
    ensures files_stay { Becomes (F.files shelf.old) (F.files shelf.new) (λ before now. now ≡ before) }
{
    match request(alloc, words) {
        Ok(Some(asked)) => answer(alloc, &asked, shelf, out),
        Ok(None) => Err(Stop::Refused(Refusal::Words)),
        Err(_) => Err(Stop::OutOfMemory),
    }
}
