//! What the lines of a listing say is what its image has. Each law is the contract of a function that does nothing.
ghost use Rattle.std.specs.Prelude.{◌≡◌, ℕ, ℤ, List, Some, All, AllPairs, ◌↔◌, ◌<◌, slice_index};
ghost use Rattle.std.specs.Prelude.{slice_index_or, length, map};
ghost use Rattle.std.specs.List.{Contains, flat_map};
ghost use Rattle.tx_journal.specs.Content.{Content};
ghost use Rattle.tx_ladder.specs.Parameters.{usual};
ghost use Rattle.z_regs.specs.Cpu.{Cpu};
ghost use Rattle.z_assemble.specs.Whole.{Stands};
ghost use Rattle.z_setup.specs.declared.parameter.Parameter.{Parameter};
ghost use Rattle.statement_laws.specs.Statements.{statements_of, IsNamed, HaveOtherLabels, IsPlaced, AreApart};
ghost use Rattle.statement_laws.specs.Statements.{Covers, IsStarted, events_of, values_of, last_or, entry_of};
ghost use Rattle.statement_laws.specs.Statements.{shows_of, prefixes_of, as_list, numbers_of, number_in};

/// The labels of a text are those of its lines, each given once.
pub fn labels_are_those_of_lines()
    ensures given { (text : List ℕ) (image : Content) (s : Stands text image) (name : List ℕ) (value : ℤ) →
        s.plan.labels name ≡ Some value ↔ IsNamed (statements_of text) name value }
    ensures once { (text : List ℕ) (image : Content) → Stands text image →
        AllPairs HaveOtherLabels (statements_of text) }
{}

/// The bytes that a line places stand in storage at its location: the code of an instruction, the data of DC,
/// the zeros of DS. No byte is placed by two lines, and a byte that no line places is 0.
pub fn each_byte_is_that_of_one_line()
    ensures placed { (text : List ℕ) (image : Content) (s : Stands text image) →
        All (IsPlaced s.plan.labels image.storage) (statements_of text) }
    ensures once { (text : List ℕ) (image : Content) (s : Stands text image) →
        AllPairs (AreApart s.plan.labels) (statements_of text) }
    ensures others { (text : List ℕ) (image : Content) (s : Stands text image) (at : ℕ) →
        All (λ line. Covers s.plan.labels line at → ⊥) (statements_of text) →
        slice_index image.storage at ≡ 0 }
{}

/// The starts of an image are the addresses of the lines that are instructions.
pub fn starts_are_those_of_instructions()
    ensures { (text : List ℕ) (image : Content) (s : Stands text image) (at : ℕ) →
        Contains image.starts at ↔ IsStarted (statements_of text) at }
{}

/// The schedule of an image is the events of the SCHED lines, in their order.
pub fn events_are_those_of_lines()
    ensures { (text : List ℕ) (image : Content) → Stands text image →
        image.schedule ≡ flat_map events_of (statements_of text) }
{}

/// The CPUs are those of the CPU lines, in their order, each at the address of its line. A general register
/// of a CPU starts as the last of the values that REG lines give it, or as 0.
pub fn cpus_are_those_of_lines()
    ensures entries { (text : List ℕ) (image : Content) (s : Stands text image) →
        map (λ (c : Cpu). c.address) image.cpus ≡ flat_map (entry_of s.plan.labels) (statements_of text) }
    ensures registers { (text : List ℕ) (image : Content) (s : Stands text image) (cpu r : ℕ) (d : Cpu) →
        cpu < length image.cpus → r < 16 →
        slice_index (slice_index_or image.cpus cpu d).general r
        ≡ last_or 0 (flat_map (values_of s.plan.labels cpu r) (statements_of text)) }
{}

/// What is shown is what the SHOW and TDB lines say, in their order.
pub fn shows_are_those_of_lines()
    ensures { (text : List ℕ) (image : Content) (s : Stands text image) →
        image.shows ≡ flat_map (shows_of s.plan.labels) (statements_of text) }
{}

/// A CPU has the prefix that a PREFIX line gives it, which at most one line does, and else none.
pub fn prefixes_are_those_of_lines()
    ensures { (text : List ℕ) (image : Content) (s : Stands text image) (cpu : ℕ) (d : Cpu) →
        cpu < length image.cpus → as_list (slice_index_or image.cpus cpu d).prefix
        ≡ flat_map (prefixes_of s.plan.labels cpu) (statements_of text) }
{}

/// A number of the retry ladder is the last of the values that PARM lines of its name give it, or the usual one.
pub fn parameters_are_those_of_lines()
    ensures { (text : List ℕ) (image : Content) (s : Stands text image) (p : Parameter) →
        number_in p image.parms
        ≡ last_or (number_in p usual) (flat_map (numbers_of s.plan.labels p) (statements_of text)) }
{}
