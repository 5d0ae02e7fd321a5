//! The kinds of operations: what an operation computes, how wide its operands are, and where they come from.
//!
//! A kind says what an operation does, and so which operands in storage it touches and what it demands; the other
//! columns of its row in the instruction table say how it is encoded.
ghost use Rattle.std.specs.Prelude.{◌≡◌};
ghost use Rattle.z_instr.specs.Kinds.{item as item_of, size_of, operands_of, storage_operands, transaction_operands};
ghost use Rattle.z_instr.specs.Kinds.{demand_of, general_demand, storage_demand, branch_demand, transaction_demand};

use crate::operand::{Demand, Operands, Size};
use z_arith::{Shift, Width};

/// An operation on bits, place by place.
#[derive(Clone, Copy)]
pub enum Logic {
    And,
    Or,
    ExclusiveOr,
}

/// What becomes of the first and the second operand. Those that do not say otherwise leave the condition
/// code.
#[derive(Clone, Copy)]
pub enum Operation {
    /// The sum of numbers with a sign, and the code of that sum.
    Add,
    /// The difference of numbers with a sign, and its code.
    Subtract,
    /// The sum of numbers without a sign; the code tells of zero and of a carry.
    AddLogical,
    /// The difference of numbers without a sign; the code tells of zero and of a borrow.
    SubtractLogical,
    /// `AddLogical`, with one more where the old code tells of a carry.
    AddWithCarry,
    /// `SubtractLogical`, with one less where the old code tells of a borrow.
    SubtractWithBorrow,
    /// The rightmost bits of the product.
    Multiply,
    /// Bit by bit; the code tells whether the result is zero.
    Logic(Logic),
    /// The second operand.
    Load,
    /// The second operand, and the code of its sign.
    LoadAndTest,
    /// The absolute value of the second operand, and its code.
    LoadPositive,
    /// The negative of the absolute value of the second operand, and its code.
    LoadNegative,
    /// The negative of the second operand, and its code.
    LoadComplement,
}

/// How two operands are compared.
#[derive(Clone, Copy)]
pub enum Order {
    /// As numbers with a sign.
    Signed,
    /// As numbers without one.
    Logical,
}

/// A piece that is brought to the width of an operation.
#[derive(Clone, Copy)]
pub enum Part {
    /// With zeros to its left.
    Plain(Size),
    /// With copies of its sign to its left.
    Signed(Size),
}

/// Where the operands come from, of an operation without an operand in storage.
#[derive(Clone, Copy)]
pub enum Source {
    /// The first is R1, the second the rightmost piece of R2.
    Second(Part),
    /// The first is R2, the second R3.
    Third,
    /// The first is R1, the second the immediate.
    Immediate,
}

/// What an operation without an operand in storage does that does not branch.
#[derive(Clone, Copy)]
pub enum General {
    /// Puts a result into R1.
    Compute(Operation, Width, Source),
    /// Compares two operands and sets the code.
    Compare(Order, Width, Source),
    /// Puts a result of bits 48 to 63 of R1 and the immediate into those bits; the code tells whether it is
    /// zero.
    LowHalfword(Logic),
    /// Puts the immediate into bits 48 to 63 of R1.
    InsertHalfword,
    /// Tests those of bits 48 to 63 of R1 that the immediate selects.
    TestHalfword,
    /// Shifts the word in R1 by the rightmost six bits of the address.
    ShiftFirst(Shift),
    /// Shifts R3 into R1 by the rightmost six bits of the address.
    ShiftThird(Shift, Width),
    /// Puts the address into R1.
    Address,
    /// Puts the address of the target into R1.
    Target,
    /// The product of the words in R1 + 1 and R2 into the words of R1 and R1 + 1.
    MultiplyWord,
    /// The product of R1 + 1 and R2 without a sign into R1 and R1 + 1.
    MultiplyLogical,
    /// The words of R1 and R1 + 1, as one number, by the word in R2: the remainder into R1, the quotient into
    /// R1 + 1.
    DivideWord,
    /// R1 + 1 by R2: the remainder into R1, the quotient into R1 + 1.
    DivideDouble,
    /// R1 and R1 + 1, as one number without a sign, by R2: the remainder into R1, the quotient into R1 + 1.
    DivideLogical,
    /// The number of zeros left of the first one in R2 into R1, and R2 without that one into R1 + 1.
    FindLeftmostOne,
    /// R2 into R1 where the mask selects the code.
    LoadSelected,
    /// The code and the program mask into bits 32 to 39 of R1.
    InsertProgramMask,
    /// The code and the program mask from bits 34 to 39 of R1.
    SetProgramMask,
    /// Access register R2 into the word of R1.
    ExtractAccess,
    /// The word of R2 into access register R1.
    SetAccess,
}

/// What an operation on storage does.
#[derive(Clone, Copy)]
pub enum Storage {
    /// Puts a result of R1 and the operand into R1.
    Compute(Operation, Width, Part),
    /// Compares R1 with the operand.
    Compare(Order, Width, Part),
    /// Compares the operand with the immediate.
    CompareImmediate(Order, Width, Part),
    /// Tests those bits of the byte that the immediate selects.
    TestUnderMask,
    /// Puts the byte into bits 56 to 63 of R1.
    InsertByte,
    /// Stores the rightmost bytes of R1.
    Store(Size),
    /// Stores the immediate.
    StoreImmediate(Size),
    /// Stores a result of the byte and the immediate; the code tells whether it is zero.
    ByteLogic(Logic),
    /// Adds the immediate to the operand, as numbers with a sign.
    AddImmediate(Width),
    /// Loads the registers from R1 up to R3, 0 after 15.
    LoadMany(Width),
    /// Stores the registers from R1 up to R3, 0 after 15.
    StoreMany(Width),
    /// Stores R3 where R1 equals the operand; else loads the operand into R1.
    CompareAndSwap(Width),
    /// Loads the operand into R1 and stores a result of it and R3.
    LoadAnd(Operation, Width),
    /// Loads the operand into R1 where the mask selects the code.
    LoadSelected,
    /// Stores R1 where the mask selects the code.
    StoreSelected,
    /// Puts bytes into the first operand, from the left, each made of a byte of both operands as it is by
    /// then.
    ByteByByte(Combination),
    /// Compares the bytes of both operands from the left.
    CompareBytes,
}

/// What becomes of a byte of the first operand and one of the second.
#[derive(Clone, Copy)]
pub enum Combination {
    /// The byte of the second.
    Move,
    /// A result of both; the code tells whether all results are zero.
    Logic(Logic),
}

/// Where a branch goes.
#[derive(Clone, Copy)]
pub enum Place {
    /// To the address in R2; nowhere where that is register 0.
    Register,
    /// To the address of base, index and displacement.
    Address,
    /// To the target, some halfwords from the instruction.
    Relative,
}

/// What an operation does that says where to go on.
#[derive(Clone, Copy)]
pub enum Branch {
    /// Branches where the mask selects the code.
    OnCondition(Place),
    /// Counts R1 down and branches where it is not zero.
    OnCount(Place, Width),
    /// Puts the next address into R1 and branches.
    AndSave(Place),
    /// Branches where the mask selects the code that comparing R1 with R2 would set.
    OnCompare(Order, Width),
    /// Branches where the mask selects the code that comparing R1 with the byte would set.
    OnCompareImmediate,
    /// Halts the CPU.
    ServiceCall,
}

/// What an operation does that is about transactions.
#[derive(Clone, Copy)]
pub enum Transaction {
    /// Begins a transaction.
    Begin,
    /// Begins a constrained transaction.
    BeginConstrained,
    /// Ends a transaction.
    End,
    /// Aborts the transaction.
    Abort,
    /// Puts the nesting depth into the word of R1.
    ExtractDepth,
    /// Stores R1 so that the store outlasts an abort.
    StoreLasting,
    /// Asks for time between attempts.
    Assist,
}

/// What an operation does, by who executes it.
#[derive(Clone, Copy)]
pub enum Kind {
    General(General),
    Storage(Storage),
    Branch(Branch),
    Transaction(Transaction),
}

/// Which piece it is.
pub fn size_in(part: Part) -> Size
    ensures { result ≡ size_of part }
{
    match part {
        Part::Plain(size) | Part::Signed(size) => size,
    }
}

/// The item that has a register's width.
pub fn item(w: Width) -> Size
    ensures { result ≡ item_of w }
{
    match w {
        Width::Word => Size::Word,
        Width::Double => Size::Doubleword,
    }
}

impl Storage {
    /// The operands in storage that the operation touches.
    fn operands(self) -> Operands
        ensures { result ≡ storage_operands self }
    {
        match self {
            Storage::Compute(_, _, part)
            | Storage::Compare(_, _, part)
            | Storage::CompareImmediate(_, _, part) => Operands::Fetched(size_in(part)),
            Storage::TestUnderMask | Storage::InsertByte => Operands::Fetched(Size::Byte),
            Storage::Store(size) | Storage::StoreImmediate(size) => Operands::Stored(size),
            Storage::ByteLogic(_) => Operands::Stored(Size::Byte),
            Storage::AddImmediate(w) | Storage::CompareAndSwap(w) | Storage::LoadAnd(_, w) => {
                Operands::Stored(item(w))
            }
            Storage::LoadMany(w) => Operands::FetchedMany(item(w)),
            Storage::StoreMany(w) => Operands::StoredMany(item(w)),
            Storage::LoadSelected => Operands::FetchedSelected,
            Storage::StoreSelected => Operands::StoredSelected,
            Storage::ByteByByte(_) => Operands::StoredAndFetched,
            Storage::CompareBytes => Operands::BothFetched,
        }
    }

    /// What is demanded: a boundary, where the operation reads and stores at once.
    fn demand(self) -> Demand
        ensures { result ≡ storage_demand self }
    {
        match self {
            Storage::CompareAndSwap(_) | Storage::LoadAnd(_, _) => Demand::Boundary,
            _ => Demand::Nothing,
        }
    }
}

impl General {
    /// What is demanded: the even register of a pair, where the result takes a pair.
    fn demand(self) -> Demand
        ensures { result ≡ general_demand self }
    {
        match self {
            General::MultiplyWord
            | General::MultiplyLogical
            | General::DivideWord
            | General::DivideDouble
            | General::DivideLogical
            | General::FindLeftmostOne => Demand::EvenPair,
            _ => Demand::Nothing,
        }
    }
}

impl Branch {
    /// What is demanded: that a service call has the number 0.
    fn demand(self) -> Demand
        ensures { result ≡ branch_demand self }
    {
        match self {
            Branch::ServiceCall => Demand::ServiceZero,
            _ => Demand::Nothing,
        }
    }
}

impl Transaction {
    /// The operands in storage that the operation touches.
    fn operands(self) -> Operands
        ensures { result ≡ transaction_operands self }
    {
        match self {
            Transaction::StoreLasting => Operands::Stored(Size::Doubleword),
            _ => Operands::Absent,
        }
    }

    /// What is demanded of a begin, of an abort's code, and of a store that outlasts an abort.
    fn demand(self) -> Demand
        ensures { result ≡ transaction_demand self }
    {
        match self {
            Transaction::Begin => Demand::Begin,
            Transaction::BeginConstrained => Demand::BeginConstrained,
            Transaction::Abort => Demand::AbortCode,
            Transaction::StoreLasting => Demand::Boundary,
            _ => Demand::Nothing,
        }
    }
}

impl Kind {
    /// The operands in storage that an operation of this kind touches.
    pub fn operands(self) -> Operands
        ensures { result ≡ operands_of self }
    {
        match self {
            Kind::General(_) | Kind::Branch(_) => Operands::Absent,
            Kind::Storage(storage) => storage.operands(),
            Kind::Transaction(transaction) => transaction.operands(),
        }
    }

    /// What an operation of this kind demands before it is executed.
    pub fn demand(self) -> Demand
        ensures { result ≡ demand_of self }
    {
        match self {
            Kind::General(general) => general.demand(),
            Kind::Storage(storage) => storage.demand(),
            Kind::Branch(branch) => branch.demand(),
            Kind::Transaction(transaction) => transaction.demand(),
        }
    }
}
