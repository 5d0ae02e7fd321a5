//! What the words ask for.
ghost use Rattle.std.specs.Prelude.{◌≡◌, IfSome};
ghost use Rattle.ztx_words.specs.Words.{IsInRange};
ghost use Rattle.ztx_top.specs.Asked.{IsReady, errand_of};

use ztx_answers::Request;
use ztx_words::Command;

/// What the words ask for.
#[derive(Clone, Copy, Debug, PartialEq, Eq)]
pub enum Errand {
    /// What is due to the bytes of the source.
    Input(Request),
    /// The report of a race on the listing that the source has: each CPU has at most `turns` counted turns, and
    /// a tick comes with each turn whose number is a multiple of `tick`, where that is not 0.
    Race { turns: u32, tick: u32 },
    /// The generator's listing for a number.
    Generate(u64),
    /// The short summary of that listing's run.
    Summary(u64),
    /// Nothing: the words are no command line.
    Nothing,
}

/// What a command asks for.
pub fn errand_of(command: Option<Command>) -> Errand
    requires { IfSome command IsInRange }
    ensures value { result ≡ errand_of command }
    ensures ready { IsReady result }
{
    match command {
        Some(Command::List) => Errand::Input(Request::List),
        Some(Command::Run { turns, tick, seed }) => Errand::Input(Request::Run {
            turns: turns as u32,
            tick: tick as u32,
            seed,
        }),
        Some(Command::Race { turns, tick }) => Errand::Race {
            turns: turns as u32,
            tick: tick as u32,
        },
        Some(Command::Generate { number }) => Errand::Generate(number),
        Some(Command::Summary { number }) => Errand::Summary(number),
        Some(Command::Deck { read: false, .. }) => Errand::Input(Request::Deck),
        Some(Command::Deck { read: true, origin }) => Errand::Input(Request::ReadDeck {
            origin: origin as u32,
        }),
        Some(Command::Step { turns, tick, seed }) => Errand::Input(Request::Step {
            turns: turns as u32,
            tick: tick as u32,
            seed,
        }),
        Some(Command::Heat { turns, tick, seed }) => Errand::Input(Request::Heat {
            turns: turns as u32,
            tick: tick as u32,
            seed,
        }),
        Some(Command::Check) => Errand::Input(Request::Check),
        None => Errand::Nothing,
    }
}
