//! Laws of codes, each the contract of a function that does nothing.
ghost use Rattle.std.specs.Prelude.{◌≡◌};
ghost use Rattle.tx_control.specs.AbortCodes as defined;
ghost use Rattle.tx_control.specs.Codes.{operation_code, protection_code, addressing_code, specification_code};
ghost use Rattle.tx_control.specs.Codes.{fixed_point_overflow_code, fixed_point_divide_code};
ghost use Rattle.tx_control.specs.Codes.{special_operation_code, transaction_constraint_code};
ghost use Rattle.tx_control.specs.declared.abort_codes.TheConstants as abort;
ghost use Rattle.tx_control.specs.declared.codes.TheConstants as exception;

/// The abort codes of the code are those of the definitions.
pub fn abort_codes_are_the_defined_ones()
    ensures external { abort.EXTERNAL_INTERRUPTION ≡ defined.external_interruption }
    ensures program { abort.PROGRAM_INTERRUPTION ≡ defined.program_interruption }
    ensures fetch_overflow { abort.FETCH_OVERFLOW ≡ defined.fetch_overflow }
    ensures store_overflow { abort.STORE_OVERFLOW ≡ defined.store_overflow }
    ensures fetch_conflict { abort.FETCH_CONFLICT ≡ defined.fetch_conflict }
    ensures store_conflict { abort.STORE_CONFLICT ≡ defined.store_conflict }
    ensures restricted { abort.RESTRICTED_INSTRUCTION ≡ defined.restricted_instruction }
    ensures filtered { abort.FILTERED_EXCEPTION ≡ defined.filtered_exception }
    ensures depth { abort.NESTING_DEPTH ≡ defined.nesting_depth }
    ensures starved { abort.STARVED ≡ defined.starved }
{}

/// The interruption codes of the code are those of the definitions.
pub fn exception_codes_are_the_defined_ones()
    ensures operation { exception.OPERATION ≡ operation_code }
    ensures protection { exception.PROTECTION ≡ protection_code }
    ensures addressing { exception.ADDRESSING ≡ addressing_code }
    ensures specification { exception.SPECIFICATION ≡ specification_code }
    ensures overflow { exception.FIXED_POINT_OVERFLOW ≡ fixed_point_overflow_code }
    ensures divide { exception.FIXED_POINT_DIVIDE ≡ fixed_point_divide_code }
    ensures special { exception.SPECIAL_OPERATION ≡ special_operation_code }
    ensures constraint { exception.TRANSACTION_CONSTRAINT ≡ transaction_constraint_code }
{}
