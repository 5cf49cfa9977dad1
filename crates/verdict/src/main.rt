// The verdict program (document 01): reads an image from standard input and prints the line of its verdict. It takes no arguments: with any it says
// on standard error how it is used, and judges nothing.
#![tactic(auto)]

ghost use Rattle.std.specs.Prelude.{◌≡◌};
ghost use Rattle.verdict.specs.Arguments.{purpose_of};

use std::env::FillError;
use std::io;
use std::rt::Env;

// What the program is asked for.
#[derive(Clone, Copy)]
pub enum Purpose {
    Judge,
    Usage,
}

// What an input has past the room for an image is left unread: the verdict is the same without it (crates/text_verdict/proofs/Beginning.antt).
fn main(rt: HostRuntime) -> io::Result<()> {
    // the program's own name among them; none of them is kept
    let arguments = (0..usize::MAX)
        .take_while(|i| !matches!(rt.arg(*i, &mut []), Err(FillError::NotPresent)))
        .count();
    match purpose_of(arguments) {
        Purpose::Judge => {
            let mut image = text_verdict::input();
            let n = text_input::read_full(&mut rt.stdin(), &mut image)?;
            text_verdict::judge(&rt, &image[..n])?;
        }
        Purpose::Usage => {
            eprintln!(rt;
                "usage: verdict < IMAGE\nreads a program image from standard input and prints the line of its verdict"
            )?;
        }
    }
    Ok(())
}

// What so many arguments ask for, the program's own name among them.
fn purpose_of(arguments: usize) -> Purpose
    ensures { result ≡ purpose_of arguments }
{
    if 1 < arguments {
        Purpose::Usage
    } else {
        Purpose::Judge
    }
}
