//! Where commands lead.
ghost use Rattle.std.specs.Prelude.{◌≡◌, min, length};
ghost use Rattle.step_text.specs.Replies.{target_of};
ghost use Rattle.tx_step.specs.Traces.{moved_to};

use step_words::StepCommand;
use tx_step::Trace;

/// To the position behind so many events, to the end at most.
fn go_to(trace: &mut Trace, n: u64)
    ensures { trace.new ≡ moved_to (min n (length trace.old.events)) trace.old }
{
    let position = trace.position();
    if n < position {
        trace.back(position - n);
    } else {
        trace.forward(n - position);
    }
}

/// To where a command leads.
pub fn follow(trace: &mut Trace, command: StepCommand)
    ensures { trace.new ≡ target_of command trace.old }
{
    match command {
        StepCommand::Forward(n) => trace.forward(n),
        StepCommand::Back(n) => trace.back(n),
        StepCommand::Go(n) => go_to(trace, n),
        StepCommand::Cpu(_) | StepCommand::Bytes { .. } | StepCommand::History => {}
    }
}
