//! The instruction table: one row for each instruction, in the order of the opcodes.

ghost use Rattle.std.specs.Prelude.{◌≡◌};

use crate::form::Form;
use crate::kind::{
    Branch, Combination, General, Kind, Logic, Operation, Order, Part, Place, Source, Storage,
    Transaction,
};
use crate::operand::Size;
use z_arith::{Shift, Width};

/// Who may have an operation.
#[derive(Clone, Copy, PartialEq, Eq)]
pub enum Use {
    /// Every transaction.
    Free,
    /// Those alone that are not constrained.
    Barred,
    /// No transaction.
    Restricted,
}

/// A row as the table keeps it. The name is the first `count` of the letters, and blanks follow it.
#[derive(Clone, Copy)]
pub struct Line {
    pub letters: [u8; 8],
    pub count: u8,
    pub opcode: u16,
    /// The manual's name of the format; the format without its letter follows from it.
    pub form: Form,
    pub usage: Use,
    /// What the operation does; the operands in storage that it touches and what it demands follow from this.
    pub kind: Kind,
}

const BYTE: Part = Part::Plain(Size::Byte);

const HALFWORD: Part = Part::Plain(Size::Halfword);

const WORD: Part = Part::Plain(Size::Word);

const DOUBLEWORD: Part = Part::Plain(Size::Doubleword);

const SIGNED_HALFWORD: Part = Part::Signed(Size::Halfword);

const SIGNED_WORD: Part = Part::Signed(Size::Word);

const BYTE_OF_R2: Source = Source::Second(Part::Plain(Size::Byte));

const HALFWORD_OF_R2: Source = Source::Second(Part::Plain(Size::Halfword));

const WORD_OF_R2: Source = Source::Second(Part::Plain(Size::Word));

const R2: Source = Source::Second(Part::Plain(Size::Doubleword));

const SIGNED_HALFWORD_OF_R2: Source = Source::Second(Part::Signed(Size::Halfword));

const SIGNED_WORD_OF_R2: Source = Source::Second(Part::Signed(Size::Word));

const AND: Operation = Operation::Logic(Logic::And);

const OR: Operation = Operation::Logic(Logic::Or);

const EXCLUSIVE_OR: Operation = Operation::Logic(Logic::ExclusiveOr);

impl Use {
    ghost use Rattle.z_instr.specs.Table.{is_restricted, is_permitted};

    /// Whether every transaction refuses the operation.
    pub fn is_restricted(self) -> bool
        ensures { result ≡ is_restricted self }
    {
        self == Use::Restricted
    }

    /// Whether constrained transactions may have it.
    pub fn is_permitted(self) -> bool
        ensures { result ≡ is_permitted self }
    {
        self == Use::Free
    }
}

/// A kind: who executes the operation, and what it does.
macro_rules! kind {
    (general $kind:ident $(($($argument:expr),+))?) => {
        Kind::General(General::$kind $(($($argument),+))?)
    };
    (storage $kind:ident $(($($argument:expr),+))?) => {
        Kind::Storage(Storage::$kind $(($($argument),+))?)
    };
    (branch $kind:ident $(($($argument:expr),+))?) => {
        Kind::Branch(Branch::$kind $(($($argument),+))?)
    };
    (transaction $kind:ident) => {
        Kind::Transaction(Transaction::$kind)
    };
}

/// A row: its name and how many letters that has, its opcode and form, who may have it, and its kind.
macro_rules! line {
    ($letters:literal $count:literal => $opcode:literal $form:ident, $use:ident, $($kind:tt)+) => {
        Line {
            letters: *$letters,
            count: $count,
            opcode: $opcode,
            form: Form::$form,
            usage: Use::$use,
            kind: kind!($($kind)+),
        }
    };
}

/// How many rows the table has.
pub const ROWS: u16 = 188;

/// The rows.
pub static TABLE: [Line; ROWS as usize] = [
    line!(b"SPM     " 3 => 0x04 RRSingle, Restricted, general SetProgramMask),
    line!(b"BCTR    " 4 => 0x06 RR, Barred, branch OnCount(Place::Register, Width::Word)),
    line!(b"BCR     " 3 => 0x07 RRMask, Barred, branch OnCondition(Place::Register)),
    line!(b"SVC     " 3 => 0x0A I, Restricted, branch ServiceCall),
    line!(b"BASR    " 4 => 0x0D RR, Barred, branch AndSave(Place::Register)),
    line!(b"LPR     " 3 => 0x10 RR, Free, general Compute(Operation::LoadPositive, Width::Word, WORD_OF_R2)),
    line!(b"LNR     " 3 => 0x11 RR, Free, general Compute(Operation::LoadNegative, Width::Word, WORD_OF_R2)),
    line!(b"LTR     " 3 => 0x12 RR, Free, general Compute(Operation::LoadAndTest, Width::Word, WORD_OF_R2)),
    line!(b"LCR     " 3 => 0x13 RR, Free, general Compute(Operation::LoadComplement, Width::Word, WORD_OF_R2)),
    line!(b"NR      " 2 => 0x14 RR, Free, general Compute(AND, Width::Word, WORD_OF_R2)),
    line!(b"CLR     " 3 => 0x15 RR, Free, general Compare(Order::Logical, Width::Word, WORD_OF_R2)),
    line!(b"OR      " 2 => 0x16 RR, Free, general Compute(OR, Width::Word, WORD_OF_R2)),
    line!(b"XR      " 2 => 0x17 RR, Free, general Compute(EXCLUSIVE_OR, Width::Word, WORD_OF_R2)),
    line!(b"LR      " 2 => 0x18 RR, Free, general Compute(Operation::Load, Width::Word, WORD_OF_R2)),
    line!(b"CR      " 2 => 0x19 RR, Free, general Compare(Order::Signed, Width::Word, WORD_OF_R2)),
    line!(b"AR      " 2 => 0x1A RR, Free, general Compute(Operation::Add, Width::Word, WORD_OF_R2)),
    line!(b"SR      " 2 => 0x1B RR, Free, general Compute(Operation::Subtract, Width::Word, WORD_OF_R2)),
    line!(b"MR      " 2 => 0x1C RR, Barred, general MultiplyWord),
    line!(b"DR      " 2 => 0x1D RR, Barred, general DivideWord),
    line!(b"ALR     " 3 => 0x1E RR, Free, general Compute(Operation::AddLogical, Width::Word, WORD_OF_R2)),
    line!(b"SLR     " 3 => 0x1F RR, Free, general Compute(Operation::SubtractLogical, Width::Word, WORD_OF_R2)),
    line!(b"STH     " 3 => 0x40 RXa, Free, storage Store(Size::Halfword)),
    line!(b"LA      " 2 => 0x41 RXa, Free, general Address),
    line!(b"STC     " 3 => 0x42 RXa, Free, storage Store(Size::Byte)),
    line!(b"IC      " 2 => 0x43 RXa, Free, storage InsertByte),
    line!(b"BCT     " 3 => 0x46 RXa, Barred, branch OnCount(Place::Address, Width::Word)),
    line!(b"BC      " 2 => 0x47 RXb, Barred, branch OnCondition(Place::Address)),
    line!(b"LH      " 2 => 0x48 RXa, Free, storage Compute(Operation::Load, Width::Word, SIGNED_HALFWORD)),
    line!(b"CH      " 2 => 0x49 RXa, Free, storage Compare(Order::Signed, Width::Word, SIGNED_HALFWORD)),
    line!(b"AH      " 2 => 0x4A RXa, Free, storage Compute(Operation::Add, Width::Word, SIGNED_HALFWORD)),
    line!(b"SH      " 2 => 0x4B RXa, Free, storage Compute(Operation::Subtract, Width::Word, SIGNED_HALFWORD)),
    line!(b"ST      " 2 => 0x50 RXa, Free, storage Store(Size::Word)),
    line!(b"N       " 1 => 0x54 RXa, Free, storage Compute(AND, Width::Word, WORD)),
    line!(b"CL      " 2 => 0x55 RXa, Free, storage Compare(Order::Logical, Width::Word, WORD)),
    line!(b"O       " 1 => 0x56 RXa, Free, storage Compute(OR, Width::Word, WORD)),
    line!(b"X       " 1 => 0x57 RXa, Free, storage Compute(EXCLUSIVE_OR, Width::Word, WORD)),
    line!(b"L       " 1 => 0x58 RXa, Free, storage Compute(Operation::Load, Width::Word, WORD)),
    line!(b"C       " 1 => 0x59 RXa, Free, storage Compare(Order::Signed, Width::Word, WORD)),
    line!(b"A       " 1 => 0x5A RXa, Free, storage Compute(Operation::Add, Width::Word, WORD)),
    line!(b"S       " 1 => 0x5B RXa, Free, storage Compute(Operation::Subtract, Width::Word, WORD)),
    line!(b"AL      " 2 => 0x5E RXa, Free, storage Compute(Operation::AddLogical, Width::Word, WORD)),
    line!(b"SL      " 2 => 0x5F RXa, Free, storage Compute(Operation::SubtractLogical, Width::Word, WORD)),
    line!(b"MS      " 2 => 0x71 RXa, Barred, storage Compute(Operation::Multiply, Width::Word, WORD)),
    line!(b"SRL     " 3 => 0x88 RSaSingle, Free, general ShiftFirst(Shift::RightLogical)),
    line!(b"SLL     " 3 => 0x89 RSaSingle, Free, general ShiftFirst(Shift::LeftLogical)),
    line!(b"SRA     " 3 => 0x8A RSaSingle, Free, general ShiftFirst(Shift::RightSigned)),
    line!(b"SLA     " 3 => 0x8B RSaSingle, Free, general ShiftFirst(Shift::LeftSigned)),
    line!(b"STM     " 3 => 0x90 RSa, Free, storage StoreMany(Width::Word)),
    line!(b"TM      " 2 => 0x91 SI, Free, storage TestUnderMask),
    line!(b"MVI     " 3 => 0x92 SI, Free, storage StoreImmediate(Size::Byte)),
    line!(b"NI      " 2 => 0x94 SI, Free, storage ByteLogic(Logic::And)),
    line!(b"CLI     " 3 => 0x95 SI, Free, storage CompareImmediate(Order::Logical, Width::Word, BYTE)),
    line!(b"OI      " 2 => 0x96 SI, Free, storage ByteLogic(Logic::Or)),
    line!(b"XI      " 2 => 0x97 SI, Free, storage ByteLogic(Logic::ExclusiveOr)),
    line!(b"LM      " 2 => 0x98 RSa, Free, storage LoadMany(Width::Word)),
    line!(b"IILL    " 4 => 0xA53 RIa, Free, general InsertHalfword),
    line!(b"NILL    " 4 => 0xA57 RIa, Free, general LowHalfword(Logic::And)),
    line!(b"OILL    " 4 => 0xA5B RIa, Free, general LowHalfword(Logic::Or)),
    line!(b"LLILL   " 5 => 0xA5F RIa, Free, general Compute(Operation::Load, Width::Double, Source::Immediate)),
    line!(b"TMLL    " 4 => 0xA71 RIa, Free, general TestHalfword),
    line!(b"BRC     " 3 => 0xA74 RIc, Free, branch OnCondition(Place::Relative)),
    line!(b"BRAS    " 4 => 0xA75 RIb, Barred, branch AndSave(Place::Relative)),
    line!(b"BRCT    " 4 => 0xA76 RIb, Free, branch OnCount(Place::Relative, Width::Word)),
    line!(b"BRCTG   " 5 => 0xA77 RIb, Free, branch OnCount(Place::Relative, Width::Double)),
    line!(b"LHI     " 3 => 0xA78 RIaSigned, Free, general Compute(Operation::Load, Width::Word, Source::Immediate)),
    line!(b"LGHI    " 4 => 0xA79 RIaSigned, Free, general Compute(Operation::Load, Width::Double, Source::Immediate)),
    line!(b"AHI     " 3 => 0xA7A RIaSigned, Free, general Compute(Operation::Add, Width::Word, Source::Immediate)),
    line!(b"AGHI    " 4 => 0xA7B RIaSigned, Free, general Compute(Operation::Add, Width::Double, Source::Immediate)),
    line!(b"MHI     " 3 => 0xA7C RIaSigned, Barred, general Compute(Operation::Multiply, Width::Word, Source::Immediate)),
    line!(b"MGHI    " 4 => 0xA7D RIaSigned, Barred, general Compute(Operation::Multiply, Width::Double, Source::Immediate)),
    line!(b"CHI     " 3 => 0xA7E RIaSigned, Free, general Compare(Order::Signed, Width::Word, Source::Immediate)),
    line!(b"CGHI    " 4 => 0xA7F RIaSigned, Free, general Compare(Order::Signed, Width::Double, Source::Immediate)),
    line!(b"IPM     " 3 => 0xB222 RRESingle, Free, general InsertProgramMask),
    line!(b"SAR     " 3 => 0xB24E RRE, Barred, general SetAccess),
    line!(b"EAR     " 3 => 0xB24F RRE, Free, general ExtractAccess),
    line!(b"MSR     " 3 => 0xB252 RRE, Barred, general Compute(Operation::Multiply, Width::Word, WORD_OF_R2)),
    line!(b"PPA     " 3 => 0xB2E8 RRFc, Restricted, transaction Assist),
    line!(b"ETND    " 4 => 0xB2EC RRESingle, Barred, transaction ExtractDepth),
    line!(b"TEND    " 4 => 0xB2F8 SAlone, Free, transaction End),
    line!(b"TABORT  " 6 => 0xB2FC S, Barred, transaction Abort),
    line!(b"LPGR    " 4 => 0xB900 RRE, Free, general Compute(Operation::LoadPositive, Width::Double, R2)),
    line!(b"LNGR    " 4 => 0xB901 RRE, Free, general Compute(Operation::LoadNegative, Width::Double, R2)),
    line!(b"LTGR    " 4 => 0xB902 RRE, Free, general Compute(Operation::LoadAndTest, Width::Double, R2)),
    line!(b"LCGR    " 4 => 0xB903 RRE, Free, general Compute(Operation::LoadComplement, Width::Double, R2)),
    line!(b"LGR     " 3 => 0xB904 RRE, Free, general Compute(Operation::Load, Width::Double, R2)),
    line!(b"LGHR    " 4 => 0xB907 RRE, Free, general Compute(Operation::Load, Width::Double, SIGNED_HALFWORD_OF_R2)),
    line!(b"AGR     " 3 => 0xB908 RRE, Free, general Compute(Operation::Add, Width::Double, R2)),
    line!(b"SGR     " 3 => 0xB909 RRE, Free, general Compute(Operation::Subtract, Width::Double, R2)),
    line!(b"ALGR    " 4 => 0xB90A RRE, Free, general Compute(Operation::AddLogical, Width::Double, R2)),
    line!(b"SLGR    " 4 => 0xB90B RRE, Free, general Compute(Operation::SubtractLogical, Width::Double, R2)),
    line!(b"MSGR    " 4 => 0xB90C RRE, Barred, general Compute(Operation::Multiply, Width::Double, R2)),
    line!(b"DSGR    " 4 => 0xB90D RRE, Barred, general DivideDouble),
    line!(b"LGFR    " 4 => 0xB914 RRE, Free, general Compute(Operation::Load, Width::Double, SIGNED_WORD_OF_R2)),
    line!(b"LLGFR   " 5 => 0xB916 RRE, Free, general Compute(Operation::Load, Width::Double, WORD_OF_R2)),
    line!(b"AGFR    " 4 => 0xB918 RRE, Free, general Compute(Operation::Add, Width::Double, SIGNED_WORD_OF_R2)),
    line!(b"SGFR    " 4 => 0xB919 RRE, Free, general Compute(Operation::Subtract, Width::Double, SIGNED_WORD_OF_R2)),
    line!(b"CGR     " 3 => 0xB920 RRE, Free, general Compare(Order::Signed, Width::Double, R2)),
    line!(b"CLGR    " 4 => 0xB921 RRE, Free, general Compare(Order::Logical, Width::Double, R2)),
    line!(b"BCTGR   " 5 => 0xB946 RRE, Barred, branch OnCount(Place::Register, Width::Double)),
    line!(b"NGR     " 3 => 0xB980 RRE, Free, general Compute(AND, Width::Double, R2)),
    line!(b"OGR     " 3 => 0xB981 RRE, Free, general Compute(OR, Width::Double, R2)),
    line!(b"XGR     " 3 => 0xB982 RRE, Free, general Compute(EXCLUSIVE_OR, Width::Double, R2)),
    line!(b"FLOGR   " 5 => 0xB983 RRE, Barred, general FindLeftmostOne),
    line!(b"LLGCR   " 5 => 0xB984 RRE, Free, general Compute(Operation::Load, Width::Double, BYTE_OF_R2)),
    line!(b"LLGHR   " 5 => 0xB985 RRE, Free, general Compute(Operation::Load, Width::Double, HALFWORD_OF_R2)),
    line!(b"MLGR    " 4 => 0xB986 RRE, Barred, general MultiplyLogical),
    line!(b"DLGR    " 4 => 0xB987 RRE, Barred, general DivideLogical),
    line!(b"ALCGR   " 5 => 0xB988 RRE, Free, general Compute(Operation::AddWithCarry, Width::Double, R2)),
    line!(b"SLBGR   " 5 => 0xB989 RRE, Free, general Compute(Operation::SubtractWithBorrow, Width::Double, R2)),
    line!(b"LOCGR   " 5 => 0xB9E2 RRFc, Free, general LoadSelected),
    line!(b"NGRK    " 4 => 0xB9E4 RRFa, Free, general Compute(AND, Width::Double, Source::Third)),
    line!(b"OGRK    " 4 => 0xB9E6 RRFa, Free, general Compute(OR, Width::Double, Source::Third)),
    line!(b"XGRK    " 4 => 0xB9E7 RRFa, Free, general Compute(EXCLUSIVE_OR, Width::Double, Source::Third)),
    line!(b"AGRK    " 4 => 0xB9E8 RRFa, Free, general Compute(Operation::Add, Width::Double, Source::Third)),
    line!(b"SGRK    " 4 => 0xB9E9 RRFa, Free, general Compute(Operation::Subtract, Width::Double, Source::Third)),
    line!(b"ARK     " 3 => 0xB9F8 RRFa, Free, general Compute(Operation::Add, Width::Word, Source::Third)),
    line!(b"SRK     " 3 => 0xB9F9 RRFa, Free, general Compute(Operation::Subtract, Width::Word, Source::Third)),
    line!(b"CS      " 2 => 0xBA RSa, Barred, storage CompareAndSwap(Width::Word)),
    line!(b"LARL    " 4 => 0xC00 RILb, Free, general Target),
    line!(b"LGFI    " 4 => 0xC01 RILaSigned, Free, general Compute(Operation::Load, Width::Double, Source::Immediate)),
    line!(b"BRCL    " 4 => 0xC04 RILc, Free, branch OnCondition(Place::Relative)),
    line!(b"BRASL   " 5 => 0xC05 RILb, Barred, branch AndSave(Place::Relative)),
    line!(b"XILF    " 4 => 0xC07 RILa, Free, general Compute(EXCLUSIVE_OR, Width::Word, Source::Immediate)),
    line!(b"NILF    " 4 => 0xC0B RILa, Free, general Compute(AND, Width::Word, Source::Immediate)),
    line!(b"OILF    " 4 => 0xC0D RILa, Free, general Compute(OR, Width::Word, Source::Immediate)),
    line!(b"LLILF   " 5 => 0xC0F RILa, Free, general Compute(Operation::Load, Width::Double, Source::Immediate)),
    line!(b"AGFI    " 4 => 0xC28 RILaSigned, Free, general Compute(Operation::Add, Width::Double, Source::Immediate)),
    line!(b"AFI     " 3 => 0xC29 RILaSigned, Free, general Compute(Operation::Add, Width::Word, Source::Immediate)),
    line!(b"CGFI    " 4 => 0xC2C RILaSigned, Free, general Compare(Order::Signed, Width::Double, Source::Immediate)),
    line!(b"CFI     " 3 => 0xC2D RILaSigned, Free, general Compare(Order::Signed, Width::Word, Source::Immediate)),
    line!(b"CLGFI   " 5 => 0xC2E RILa, Free, general Compare(Order::Logical, Width::Double, Source::Immediate)),
    line!(b"MVC     " 3 => 0xD2 SSa, Barred, storage ByteByByte(Combination::Move)),
    line!(b"NC      " 2 => 0xD4 SSa, Barred, storage ByteByByte(Combination::Logic(Logic::And))),
    line!(b"CLC     " 3 => 0xD5 SSa, Barred, storage CompareBytes),
    line!(b"OC      " 2 => 0xD6 SSa, Barred, storage ByteByByte(Combination::Logic(Logic::Or))),
    line!(b"XC      " 2 => 0xD7 SSa, Barred, storage ByteByByte(Combination::Logic(Logic::ExclusiveOr))),
    line!(b"LTG     " 3 => 0xE302 RXYa, Free, storage Compute(Operation::LoadAndTest, Width::Double, DOUBLEWORD)),
    line!(b"LG      " 2 => 0xE304 RXYa, Free, storage Compute(Operation::Load, Width::Double, DOUBLEWORD)),
    line!(b"AG      " 2 => 0xE308 RXYa, Free, storage Compute(Operation::Add, Width::Double, DOUBLEWORD)),
    line!(b"SG      " 2 => 0xE309 RXYa, Free, storage Compute(Operation::Subtract, Width::Double, DOUBLEWORD)),
    line!(b"ALG     " 3 => 0xE30A RXYa, Free, storage Compute(Operation::AddLogical, Width::Double, DOUBLEWORD)),
    line!(b"SLG     " 3 => 0xE30B RXYa, Free, storage Compute(Operation::SubtractLogical, Width::Double, DOUBLEWORD)),
    line!(b"MSG     " 3 => 0xE30C RXYa, Barred, storage Compute(Operation::Multiply, Width::Double, DOUBLEWORD)),
    line!(b"LGF     " 3 => 0xE314 RXYa, Free, storage Compute(Operation::Load, Width::Double, SIGNED_WORD)),
    line!(b"LGH     " 3 => 0xE315 RXYa, Free, storage Compute(Operation::Load, Width::Double, SIGNED_HALFWORD)),
    line!(b"LLGF    " 4 => 0xE316 RXYa, Free, storage Compute(Operation::Load, Width::Double, WORD)),
    line!(b"AGF     " 3 => 0xE318 RXYa, Free, storage Compute(Operation::Add, Width::Double, SIGNED_WORD)),
    line!(b"CG      " 2 => 0xE320 RXYa, Free, storage Compare(Order::Signed, Width::Double, DOUBLEWORD)),
    line!(b"CLG     " 3 => 0xE321 RXYa, Free, storage Compare(Order::Logical, Width::Double, DOUBLEWORD)),
    line!(b"STG     " 3 => 0xE324 RXYa, Free, storage Store(Size::Doubleword)),
    line!(b"NTSTG   " 5 => 0xE325 RXYa, Barred, transaction StoreLasting),
    line!(b"STY     " 3 => 0xE350 RXYa, Free, storage Store(Size::Word)),
    line!(b"LY      " 2 => 0xE358 RXYa, Free, storage Compute(Operation::Load, Width::Word, WORD)),
    line!(b"LAY     " 3 => 0xE371 RXYa, Free, general Address),
    line!(b"NG      " 2 => 0xE380 RXYa, Free, storage Compute(AND, Width::Double, DOUBLEWORD)),
    line!(b"OG      " 2 => 0xE381 RXYa, Free, storage Compute(OR, Width::Double, DOUBLEWORD)),
    line!(b"XG      " 2 => 0xE382 RXYa, Free, storage Compute(EXCLUSIVE_OR, Width::Double, DOUBLEWORD)),
    line!(b"LLGC    " 4 => 0xE390 RXYa, Free, storage Compute(Operation::Load, Width::Double, BYTE)),
    line!(b"LLGH    " 4 => 0xE391 RXYa, Free, storage Compute(Operation::Load, Width::Double, HALFWORD)),
    line!(b"MVHHI   " 5 => 0xE544 SILSigned, Free, storage StoreImmediate(Size::Halfword)),
    line!(b"MVGHI   " 5 => 0xE548 SILSigned, Free, storage StoreImmediate(Size::Doubleword)),
    line!(b"MVHI    " 4 => 0xE54C SILSigned, Free, storage StoreImmediate(Size::Word)),
    line!(b"CGHSI   " 5 => 0xE558 SILSigned, Free, storage CompareImmediate(Order::Signed, Width::Double, DOUBLEWORD)),
    line!(b"CHSI    " 4 => 0xE55C SILSigned, Free, storage CompareImmediate(Order::Signed, Width::Word, WORD)),
    line!(b"TBEGIN  " 6 => 0xE560 SIL, Barred, transaction Begin),
    line!(b"TBEGINC " 7 => 0xE561 SIL, Barred, transaction BeginConstrained),
    line!(b"LMG     " 3 => 0xEB04 RSYa, Free, storage LoadMany(Width::Double)),
    line!(b"SRAG    " 4 => 0xEB0A RSYa, Free, general ShiftThird(Shift::RightSigned, Width::Double)),
    line!(b"SLAG    " 4 => 0xEB0B RSYa, Free, general ShiftThird(Shift::LeftSigned, Width::Double)),
    line!(b"SRLG    " 4 => 0xEB0C RSYa, Free, general ShiftThird(Shift::RightLogical, Width::Double)),
    line!(b"SLLG    " 4 => 0xEB0D RSYa, Free, general ShiftThird(Shift::LeftLogical, Width::Double)),
    line!(b"RLLG    " 4 => 0xEB1C RSYa, Free, general ShiftThird(Shift::Rotate, Width::Double)),
    line!(b"RLL     " 3 => 0xEB1D RSYa, Free, general ShiftThird(Shift::Rotate, Width::Word)),
    line!(b"STMG    " 4 => 0xEB24 RSYa, Free, storage StoreMany(Width::Double)),
    line!(b"CSG     " 3 => 0xEB30 RSYa, Barred, storage CompareAndSwap(Width::Double)),
    line!(b"ASI     " 3 => 0xEB6A SIY, Barred, storage AddImmediate(Width::Word)),
    line!(b"AGSI    " 4 => 0xEB7A SIY, Barred, storage AddImmediate(Width::Double)),
    line!(b"LOCG    " 4 => 0xEBE2 RSYb, Free, storage LoadSelected),
    line!(b"STOCG   " 5 => 0xEBE3 RSYb, Free, storage StoreSelected),
    line!(b"LANG    " 4 => 0xEBE4 RSYa, Barred, storage LoadAnd(AND, Width::Double)),
    line!(b"LAOG    " 4 => 0xEBE6 RSYa, Barred, storage LoadAnd(OR, Width::Double)),
    line!(b"LAXG    " 4 => 0xEBE7 RSYa, Barred, storage LoadAnd(EXCLUSIVE_OR, Width::Double)),
    line!(b"LAAG    " 4 => 0xEBE8 RSYa, Barred, storage LoadAnd(Operation::Add, Width::Double)),
    line!(b"LAA     " 3 => 0xEBF8 RSYa, Barred, storage LoadAnd(Operation::Add, Width::Word)),
    line!(b"CGRJ    " 4 => 0xEC64 RIEb, Free, branch OnCompare(Order::Signed, Width::Double)),
    line!(b"CLGRJ   " 5 => 0xEC65 RIEb, Free, branch OnCompare(Order::Logical, Width::Double)),
    line!(b"CRJ     " 3 => 0xEC76 RIEb, Free, branch OnCompare(Order::Signed, Width::Word)),
    line!(b"CGIJ    " 4 => 0xEC7C RIEc, Free, branch OnCompareImmediate),
];

/// A name, with blanks behind it, and the number of its row.
pub struct Named {
    pub letters: [u8; 8],
    pub row: u16,
}

macro_rules! named {
    ($letters:literal $row:literal) => {
        Named {
            letters: *$letters,
            row: $row,
        }
    };
}

/// The rows in the order of their names, as `docs/instructions --names` prints them. Nothing rests on it but
/// time: what is found in it is compared, and a name that is not found is looked for in the table itself.
pub static NAMED: [Named; ROWS as usize] = [
    named!(b"A       " 38),
    named!(b"AFI     " 127),
    named!(b"AG      " 138),
    named!(b"AGF     " 146),
    named!(b"AGFI    " 126),
    named!(b"AGFR    " 94),
    named!(b"AGHI    " 67),
    named!(b"AGR     " 86),
    named!(b"AGRK    " 113),
    named!(b"AGSI    " 176),
    named!(b"AH      " 29),
    named!(b"AHI     " 66),
    named!(b"AL      " 40),
    named!(b"ALCGR   " 107),
    named!(b"ALG     " 140),
    named!(b"ALGR    " 88),
    named!(b"ALR     " 19),
    named!(b"AR      " 15),
    named!(b"ARK     " 115),
    named!(b"ASI     " 175),
    named!(b"BASR    " 4),
    named!(b"BC      " 26),
    named!(b"BCR     " 2),
    named!(b"BCT     " 25),
    named!(b"BCTGR   " 98),
    named!(b"BCTR    " 1),
    named!(b"BRAS    " 61),
    named!(b"BRASL   " 121),
    named!(b"BRC     " 60),
    named!(b"BRCL    " 120),
    named!(b"BRCT    " 62),
    named!(b"BRCTG   " 63),
    named!(b"C       " 37),
    named!(b"CFI     " 129),
    named!(b"CG      " 147),
    named!(b"CGFI    " 128),
    named!(b"CGHI    " 71),
    named!(b"CGHSI   " 162),
    named!(b"CGIJ    " 187),
    named!(b"CGR     " 96),
    named!(b"CGRJ    " 184),
    named!(b"CH      " 28),
    named!(b"CHI     " 70),
    named!(b"CHSI    " 163),
    named!(b"CL      " 33),
    named!(b"CLC     " 133),
    named!(b"CLG     " 148),
    named!(b"CLGFI   " 130),
    named!(b"CLGR    " 97),
    named!(b"CLGRJ   " 185),
    named!(b"CLI     " 51),
    named!(b"CLR     " 10),
    named!(b"CR      " 14),
    named!(b"CRJ     " 186),
    named!(b"CS      " 117),
    named!(b"CSG     " 174),
    named!(b"DLGR    " 106),
    named!(b"DR      " 18),
    named!(b"DSGR    " 91),
    named!(b"EAR     " 74),
    named!(b"ETND    " 77),
    named!(b"FLOGR   " 102),
    named!(b"IC      " 24),
    named!(b"IILL    " 55),
    named!(b"IPM     " 72),
    named!(b"L       " 36),
    named!(b"LA      " 22),
    named!(b"LAA     " 183),
    named!(b"LAAG    " 182),
    named!(b"LANG    " 179),
    named!(b"LAOG    " 180),
    named!(b"LARL    " 118),
    named!(b"LAXG    " 181),
    named!(b"LAY     " 153),
    named!(b"LCGR    " 83),
    named!(b"LCR     " 8),
    named!(b"LG      " 137),
    named!(b"LGF     " 143),
    named!(b"LGFI    " 119),
    named!(b"LGFR    " 92),
    named!(b"LGH     " 144),
    named!(b"LGHI    " 65),
    named!(b"LGHR    " 85),
    named!(b"LGR     " 84),
    named!(b"LH      " 27),
    named!(b"LHI     " 64),
    named!(b"LLGC    " 157),
    named!(b"LLGCR   " 103),
    named!(b"LLGF    " 145),
    named!(b"LLGFR   " 93),
    named!(b"LLGH    " 158),
    named!(b"LLGHR   " 104),
    named!(b"LLILF   " 125),
    named!(b"LLILL   " 58),
    named!(b"LM      " 54),
    named!(b"LMG     " 166),
    named!(b"LNGR    " 81),
    named!(b"LNR     " 6),
    named!(b"LOCG    " 177),
    named!(b"LOCGR   " 109),
    named!(b"LPGR    " 80),
    named!(b"LPR     " 5),
    named!(b"LR      " 13),
    named!(b"LTG     " 136),
    named!(b"LTGR    " 82),
    named!(b"LTR     " 7),
    named!(b"LY      " 152),
    named!(b"MGHI    " 69),
    named!(b"MHI     " 68),
    named!(b"MLGR    " 105),
    named!(b"MR      " 17),
    named!(b"MS      " 42),
    named!(b"MSG     " 142),
    named!(b"MSGR    " 90),
    named!(b"MSR     " 75),
    named!(b"MVC     " 131),
    named!(b"MVGHI   " 160),
    named!(b"MVHHI   " 159),
    named!(b"MVHI    " 161),
    named!(b"MVI     " 49),
    named!(b"N       " 32),
    named!(b"NC      " 132),
    named!(b"NG      " 154),
    named!(b"NGR     " 99),
    named!(b"NGRK    " 110),
    named!(b"NI      " 50),
    named!(b"NILF    " 123),
    named!(b"NILL    " 56),
    named!(b"NR      " 9),
    named!(b"NTSTG   " 150),
    named!(b"O       " 34),
    named!(b"OC      " 134),
    named!(b"OG      " 155),
    named!(b"OGR     " 100),
    named!(b"OGRK    " 111),
    named!(b"OI      " 52),
    named!(b"OILF    " 124),
    named!(b"OILL    " 57),
    named!(b"OR      " 11),
    named!(b"PPA     " 76),
    named!(b"RLL     " 172),
    named!(b"RLLG    " 171),
    named!(b"S       " 39),
    named!(b"SAR     " 73),
    named!(b"SG      " 139),
    named!(b"SGFR    " 95),
    named!(b"SGR     " 87),
    named!(b"SGRK    " 114),
    named!(b"SH      " 30),
    named!(b"SL      " 41),
    named!(b"SLA     " 46),
    named!(b"SLAG    " 168),
    named!(b"SLBGR   " 108),
    named!(b"SLG     " 141),
    named!(b"SLGR    " 89),
    named!(b"SLL     " 44),
    named!(b"SLLG    " 170),
    named!(b"SLR     " 20),
    named!(b"SPM     " 0),
    named!(b"SR      " 16),
    named!(b"SRA     " 45),
    named!(b"SRAG    " 167),
    named!(b"SRK     " 116),
    named!(b"SRL     " 43),
    named!(b"SRLG    " 169),
    named!(b"ST      " 31),
    named!(b"STC     " 23),
    named!(b"STG     " 149),
    named!(b"STH     " 21),
    named!(b"STM     " 47),
    named!(b"STMG    " 173),
    named!(b"STOCG   " 178),
    named!(b"STY     " 151),
    named!(b"SVC     " 3),
    named!(b"TABORT  " 79),
    named!(b"TBEGIN  " 164),
    named!(b"TBEGINC " 165),
    named!(b"TEND    " 78),
    named!(b"TM      " 48),
    named!(b"TMLL    " 59),
    named!(b"X       " 35),
    named!(b"XC      " 135),
    named!(b"XG      " 156),
    named!(b"XGR     " 101),
    named!(b"XGRK    " 112),
    named!(b"XI      " 53),
    named!(b"XILF    " 122),
    named!(b"XR      " 12),
];
