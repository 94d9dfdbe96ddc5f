// The numbers of document 01, The box, and where things lie in the words.
pub const CONTAINERS: u8 = 64;

// The first containers are devices, those behind them processes, and from here on files and pipes.
// Process p is container DEVICES + p, written out where it is due: a From would be of every number, and a u8 ends at 255.
pub const DEVICES: u8 = 8;

pub const FIRST_FILE: u8 = 24;

// The set of those that a descriptor or a name may lead to: devices, files and pipes.
pub const TARGETS: u64 = 0xFFFF_FFFF_FF00_00FF;

// The set of all files and pipes, 24 to 63.
pub const FILES: u64 = 0xFFFF_FFFF_FF00_0000;

pub const PROCESSES: u8 = 16;

pub const ALL_PROCESSES: u64 = 0xFFFF;

// The set of all processes' containers, 8 to 23.
pub const PROCESS_CONTAINERS: u64 = 0xFF_FF00;

// Of each process.
pub const DESCRIPTORS: u8 = 32;

// The same number, as a length.
pub const BLOCK: usize = 32;

pub const NAMES: u8 = 128;

pub const ITEMS: u8 = 64;

// The sorts of mapping, 0 and 1, as unmap's field b names them (document 02, Paper 4).
pub const SORTS: u8 = 2;

// The mark of a closed descriptor and of an unbound name. A number and no option: the tables are bytes that C declares.
pub const CLOSED: u8 = 255;

// The live processes stand at 0.
pub const ITEMS_AT: usize = 1;

// For each process the containers that it maps, and those of them that it maps both ways.
pub const MAPS_AT: usize = 65;

// From here on those of the processes 8 to 15.
pub const HIGH_AT: usize = 73;

pub const WAYS_AT: usize = 81;

// For each process eight words with a byte for each container: its counts for reading, then those both ways.
pub const READS_AT: usize = 97;

pub const BOTHS_AT: usize = 225;

// The words of counts of a process.
pub const COUNTS: usize = 8;

// The greatest count of mappings (document 02, Paper 4).
pub const FULL: u8 = 255;
