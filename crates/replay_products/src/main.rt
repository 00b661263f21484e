// Replays answers for rows of A and the six products: the oracle's mod q, and an independent computation's word for word. Prints how many agree.
#![tactic(auto)]

ghost use Rattle.std.specs.Prelude.{◌*◌, ◌≤◌, vec_len, IfOk};

use replay::{Line, Tally};
use replay_answers::{Input, Made};
use std::alloc::{AllocError, Global};
use std::io;

// The commands of lines. Those in Q have their words taken mod q first.
#[derive(Clone, Copy, PartialEq, Eq)]
enum Command {
    RowQ,
    RowW,
    AsQ,
    AsW,
    SaQ,
    SaW,
    Sb,
    Bs,
    Add,
    Sub,
}

// What is printed of each command, and of any other line.
const COMMANDS: [(Option<Command>, &str); 11] = [
    (Some(Command::RowQ), "rows of A mod q"),
    (Some(Command::RowW), "rows of A"),
    (Some(Command::AsQ), "A * S + E mod q"),
    (Some(Command::AsW), "A * S + E"),
    (Some(Command::SaQ), "S' * A + E' mod q"),
    (Some(Command::SaW), "S' * A + E'"),
    (Some(Command::Sb), "S' * B + E''"),
    (Some(Command::Bs), "B' * S"),
    (Some(Command::Add), "sums"),
    (Some(Command::Sub), "differences"),
    (None, "other lines"),
];

fn command_of(line: Line<'_>) -> Option<Command> {
    match line.field(0)? {
        b"row_q" => Some(Command::RowQ),
        b"row_w" => Some(Command::RowW),
        b"as_q" => Some(Command::AsQ),
        b"as_w" => Some(Command::AsW),
        b"sa_q" => Some(Command::SaQ),
        b"sa_w" => Some(Command::SaW),
        b"sb" => Some(Command::Sb),
        b"bs" => Some(Command::Bs),
        b"add" => Some(Command::Add),
        b"sub" => Some(Command::Sub),
        _ => None,
    }
}

// The words of a command's answer.
fn answer(alloc: Global, command: Command, input: &Input) -> Result<Vec<u16>, AllocError>
    ensures { IfOk result (λ words. vec_len words ≤ 9 * input.now.set.p.n) }
{
    match command {
        Command::RowQ | Command::RowW => input.rows(alloc),
        Command::AsQ | Command::AsW => input.as_plus_e(alloc),
        Command::SaQ | Command::SaW => input.sa_plus_e(alloc),
        Command::Sb => input.sb_plus_e(alloc),
        Command::Bs => input.bs(alloc),
        Command::Add => input.sum(alloc),
        Command::Sub => input.difference(alloc),
    }
}

// Whether that is the digest of the words' bytes.
fn agrees(
    alloc: Global,
    command: Command,
    input: &Input,
    expected: &[u8],
) -> Result<bool, AllocError> {
    let mut words = answer(alloc, command, input)?;
    if matches!(command, Command::RowQ | Command::AsQ | Command::SaQ) {
        input.in_residues(&mut words);
    }
    let bytes = replay_answers::bytes_of(alloc, &words)?;
    Ok(replay::digest(&bytes).as_slice() == expected)
}

// One line of a command: COMMAND SET KIND SEED DIGEST.
fn line_agrees(alloc: Global, command: Command, line: Line<'_>) -> Result<bool, AllocError> {
    let Some(set) = sets::choose(line.decimal(1)) else {
        return Ok(false);
    };
    let Some(made) = line.field(2).and_then(Made::of) else {
        return Ok(false);
    };
    let seed = line.bytes(alloc, 3, 16)?;
    let expected = line.bytes(alloc, 4, 16)?;
    let input = Input::new(alloc, set, made, seed)?;
    agrees(alloc, command, &input, &expected)
}

fn main(rt: HostRuntime) -> io::Result<()> {
    let alloc = rt.alloc();
    let text = replay::read(&rt, alloc, b"products.txt", 16384)?;
    for (command, name) in COMMANDS {
        let tally = replay::count(&text, |tally, line| -> Result<Tally, AllocError> {
            if command_of(line) != command {
                return Ok(tally);
            }
            let agrees = match command {
                Some(command) => line_agrees(alloc, command, line)?,
                None => false,
            };
            Ok(tally.with(agrees))
        })?;
        println!(rt; "{name}: {tally}")?;
    }
    Ok(())
}
