#![tactic(auto)]

// Reads scripts of calls and prints the answers.
mod actions;
mod args;
mod body;
mod clause_calls;
mod dump;
mod name_calls;
mod reader;
mod session;
mod set_calls;
mod set_reads;
mod stop;
mod template_calls;

use anyhow::{Context, anyhow};
use session::Session;
use std::alloc::Global;
use std::fs::File;
use std::io::{BufRead, BufReader, BufWriter, Read, Stdout, Write};
use std::{env, iter};

// The lines that stand behind the last one of every script.
const LAST_LINES: &[u8] = b"dump A\ndump B\n";

// Answers every line, of which the last one may lack its line feed. One buffer takes the lines in turn, and the answers are
// written in the same loop: `split` asks for memory at each line, and a function for one line copies its error's whole room.
fn answer_lines<R: BufRead + Drop>(
    session: &mut Session,
    heap: Global,
    mut input: R,
    output: &mut BufWriter<Stdout>,
) -> anyhow::Result<()> {
    let mut line = Vec::new(heap);
    for _ in 0..u64::MAX {
        line.clear();
        if input.read_until(b'\n', &mut line)? == 0 {
            break;
        }
        let text = line.as_slice();
        if let Some(answer) = session.answer(text.strip_suffix(b"\n").unwrap_or(text))? {
            writeln!(output, "{answer}")?;
        }
    }
    Ok(())
}

// Answers every line of a script, and then dumps both sets.
fn answer_script<R: Read + Drop>(
    heap: Global,
    script: R,
    output: &mut BufWriter<Stdout>,
) -> anyhow::Result<()> {
    let mut session = Session::new(heap).map_err(|_| anyhow!("no memory for the books"))?;
    answer_lines(&mut session, heap, BufReader::new(heap, script)?, output)?;
    answer_lines(&mut session, heap, LAST_LINES, output)
}

// Answers the script of a path; `-` is standard input.
fn answer_path(rt: &HostRuntime, path: &str, output: &mut BufWriter<Stdout>) -> anyhow::Result<()> {
    let heap = rt.alloc();
    if path == "-" {
        return answer_script(heap, rt.stdin(), output);
    }
    let script = File::open(rt, path).with_context(|| format!(in heap; "{path}"))?;
    answer_script(heap, script, output)
}

// Answers the scripts that the arguments name, each on empty books, and standard input where they name none.
// A comment with its name stands before the answers of each where there is more than one.
fn run(rt: &HostRuntime) -> anyhow::Result<()> {
    let mut output = BufWriter::new(rt.alloc(), rt.stdout())?;
    let mut paths = env::args(rt)?.skip(1);
    let first = match paths.next() {
        Some(path) => path,
        None => String::from_str(rt.alloc(), "-")?,
    };
    let many = paths.len() > 0;
    for path in iter::once(first).chain(paths) {
        if many {
            writeln!(output, "# {path}")?;
        }
        answer_path(rt, path.as_str(), &mut output)?;
    }
    output.flush()?;
    Ok(())
}

fn main(rt: HostRuntime) -> anyhow::Result<()> {
    run(&rt)
}
