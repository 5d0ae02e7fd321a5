//! Laws of the texts, each the contract of a function that does nothing.
ghost use Rattle.std.specs.Prelude.{◌≡◌, ◌<◌, ◌^◌, ℕ, List, length};
ghost use Rattle.tx_control.specs.declared.begins.Begin.{Begin};
ghost use Rattle.tx_control.specs.declared.causes.Why.{Why};
ghost use Rattle.tx_abort.specs.Block.{block};
ghost use Rattle.tx_abort.specs.Causes.{cause_of};
ghost use Rattle.report_text.specs.Storage.{block_line};
ghost use Rattle.report_text.specs.Blocks.{told_line};

/// The line of a block that an abort has made tells what ended the attempt: the abort code, the depth, the
/// line of a conflict, the address, and the code of an exception.
pub fn a_block_shows_what_ended_the_attempt()
    ensures { (why : Why) (nest : List Begin) (general : List ℕ) (first at : ℕ) →
        length nest < 2 ^ 16 → (cause_of why).code < 2 ^ 64 →
        block_line first (block why nest general at) ≡ told_line first why nest at }
{}
