// SPDX-License-Identifier: BSD-2-Clause OR GPL-2.0-or-later
// The rules, each with its number, and what is told of a broken one.
ghost use Rattle.std.specs.Prelude.{◌≡◌, None};
ghost use Rattle.laws.specs.facts.Told.{number_of};

#[derive(Clone, Copy, PartialEq, Eq)]
pub enum Rule {
    // The width is no board number.
    BoardWidth = 1,

    // The node words are not 1 to 1,024 whole records.
    NodeTableSize = 2,

    // The property words are not 0 to 4,096 whole records.
    PropertyTableSize = 3,

    // The pool has more than 65,536 bytes.
    PoolSize = 4,

    // A node's name is too short, too long or outside the pool.
    NodeNameRange = 5,

    // A node's parent does not make the table depth-first.
    NodeParentOrder = 6,

    // A property's node, name or value is not on the board.
    PropertyRange = 7,

    // A property repeats an earlier one of its node.
    DuplicateProperty = 8,

    // Record 0 is not named `cpus`.
    CpusNode = 9,

    // `#address-cells` of record 0 is missing, not four bytes, or a number that the width does not allow.
    CpusAddressCells = 36,

    // `#size-cells` of record 0 is missing, or not four zero bytes.
    CpusSizeCells = 37,

    // There are no cpu records, or more than 256.
    CpuCount = 10,

    // A cpu record's `device_type` is not `cpu`.
    CpuDeviceType = 11,

    // A cpu record's `reg` is missing, of another length, or has bits that are no affinity bits.
    CpuReg = 12,

    // A cpu record's MPIDR is an earlier one's.
    DuplicateCpuReg = 13,

    // There is no map.
    CpuMapMissing = 15,

    // A record besides the map is named as the map.
    CpuMapDuplicate = 16,

    // A cpu record's `phandle` is missing, 0, 0xFFFFFFFF or an earlier one's.
    CpuPhandle = 17,

    // A record outside the map has a topology name.
    TopologyOutsideMap = 18,

    // A record below the map has no topology name.
    CpuMapName = 19,

    // A record below the map has a kind that its parent or its parent's first child does not allow.
    CpuMapKind = 20,

    // The number in a name is not below the number of siblings, itself counted, or an earlier sibling has it.
    CpuMapOrder = 21,

    // A cluster has four clusters above it.
    CpuMapDepth = 22,

    // The map, a socket or a cluster has no children.
    CpuMapEmpty = 23,

    // A leaf's `cpu` names no cpu record.
    CpuMapPhandle = 24,

    // A leaf names the cpu record of an earlier leaf.
    CpuMapCpuRepeated = 25,

    // No leaf names a cpu record.
    CpuUnmapped = 26,

    // The row buffer is too short.
    RowSpace = 27,

    // The hash has more bits than a table of slots may have.
    SlotTableBits = 38,

    // A table of slots has fewer entries than there are slots, two to the hash's bits.
    SlotTableSpace = 39,

    // A list of MPIDRs is empty or too long.
    ListLength = 28,

    // An MPIDR of a list has a bit that is no affinity bit.
    ListMpidr = 29,

    // An MPIDR is not in the list.
    ListUnknown = 30,

    // The positions of a plan do not rise, leave the affinity bits, or do not separate the list.
    PlanPositions = 40,

    // A blob's length, magic, total size or versions are not those of a flattened devicetree that can be read.
    BlobHeader = 31,

    // A block leaves the blob's total size, or the structure block is not aligned.
    BlobBlocks = 32,

    // The token stream breaks the structure of a devicetree.
    BlobStructure = 33,

    // The root has not exactly one child named `cpus`.
    BlobCpus = 34,

    // A lent table is too short.
    TableSpace = 35,

    // The answer buffer is too short.
    AnswerSpace = 49,
}

// A rule that is broken, and where.
#[derive(Clone, Copy, PartialEq, Eq)]
pub struct Broken {
    pub rule: Rule,
    pub place: usize,
}

// A rule that is broken: where, and the record of the property that is told of, if any is.
#[derive(Clone, Copy, PartialEq, Eq)]
pub struct Refusal {
    pub rule: Rule,
    pub place: usize,
    pub property: Option<usize>,
}

impl Rule {
    // The number that is told.
    pub fn number(self) -> u32
        ensures { result ≡ number_of self }
    {
        self as u32
    }

    // The rule broken at a place.
    pub fn broken_at(self, place: usize) -> Broken
        ensures { result ≡ record { rule = self; place = place } }
    {
        Broken { rule: self, place }
    }

    // The rule broken at a place, told of no property.
    pub fn at(self, place: usize) -> Refusal
        ensures { result ≡ record { rule = self; place = place; property = None } }
    {
        Refusal {
            rule: self,
            place,
            property: None,
        }
    }
}

// A rule that a board as a whole breaks: its place is 0.
impl From<Rule> for Refusal {
    ghost from_gives = { λ rule refusal. refusal ≡ record { rule = rule; place = 0; property = None } };

    fn from(rule: Rule) -> Refusal {
        rule.at(0)
    }
}

// A rule that what was lent breaks as a whole: its place is 0.
impl From<Rule> for Broken {
    ghost from_gives = { λ rule broken. broken ≡ record { rule = rule; place = 0 } };

    fn from(rule: Rule) -> Broken {
        rule.broken_at(0)
    }
}

// What is told of no property.
impl From<Broken> for Refusal {
    ghost from_gives = { λ broken refusal. refusal ≡ record { rule = broken.rule; place = broken.place; property = None } };

    fn from(broken: Broken) -> Refusal {
        broken.rule.at(broken.place)
    }
}
