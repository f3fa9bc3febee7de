ghost use Rattle.std.specs.Prelude.{◌≡◌, ◌+◌, ◌≤◌, IfOk, length, map};
ghost use Rattle.std.specs.Str.Lines.{strip_carriage_return};
ghost use Rattle.lab_model.specs.Line.{is_run, lines_of};

use crdt_laws::NoMemory;
use std::alloc::Global;

/// The lines of a script that are run, in their order: what stands between its line feeds, each without a carriage
/// return at its end. Empty lines, and comments, which begin with `#`, are left out.
pub(crate) fn lines_of(alloc: Global, script: &[u8]) -> Result<Vec<&[u8]>, NoMemory>
    ensures { IfOk result (λ lines. map (λ line. line.now) lines.items ≡ lines_of script.now) }
{
    let lines = script
        .split(|byte| *byte == b'\n')
        .map(|piece| without_return(piece))
        .filter(|line| is_run(line))
        .collect(alloc)?;
    Ok(lines)
}

/// The line without the one carriage return at its end, if it has one.
fn without_return(line: &[u8]) -> &[u8]
    ensures { result.now ≡ strip_carriage_return line.now }
{
    match line {
        [shorter @ .., b'\r'] => shorter,
        _ => line,
    }
}

/// Whether a line is neither empty nor a comment.
fn is_run(line: &[u8]) -> bool
    ensures { result ≡ is_run line.now }
{
    !matches!(line, [] | [b'#', ..])
}

#[cfg(test)]
mod tests;
