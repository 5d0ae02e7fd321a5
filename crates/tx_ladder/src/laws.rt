//! Laws of the ladder's numbers, each the contract of a function that does nothing.
ghost use Rattle.std.specs.Prelude.{◌≡◌};
ghost use Rattle.tx_ladder.specs.Parameters.{reject_choice, firm_choice, late_choice, starve_choice};
ghost use Rattle.tx_ladder.specs.Parameters.{stop_choice, delay_choice, most_rejects};
ghost use Rattle.tx_ladder.specs.declared.parms.TheConstants as code;

/// The ranges and the usual values of the code are those of the definitions.
pub fn choices_are_the_defined_ones()
    ensures reject { code.REJECT ≡ reject_choice }
    ensures firm { code.FIRM ≡ firm_choice }
    ensures late { code.LATE ≡ late_choice }
    ensures starve { code.STARVE ≡ starve_choice }
    ensures stop { code.STOP ≡ stop_choice }
    ensures delay { code.DELAY ≡ delay_choice }
    ensures most { code.MOST_REJECTS ≡ most_rejects }
{}
