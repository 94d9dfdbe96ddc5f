// The descriptors of a process: 32 in a row.
ghost use Rattle.std.specs.Prelude.{◌%◌, ◌≡◌, false, replicate};
ghost use Rattle.flow.specs.Box.{descriptor_count, closed};
ghost use Rattle.flow.specs.Calls.{put_block, block};
ghost use Rattle.store.specs.Maps.{file_set, files_in};

use crate::limits::{BLOCK, CLOSED, CONTAINERS, FIRST_FILE, PROCESSES};
use crate::numbers::Process;

// Closes all of a process's descriptors.
pub fn close_block(descriptors: &mut [u8; 512], p: Process)
    ensures { descriptors.new ≡ put_block descriptors.old (p.0 % 16) (replicate descriptor_count closed) }
{
    let at = BLOCK * (p.0 % PROCESSES) as usize;
    descriptors[at..at + BLOCK].fill(CLOSED);
}

// Makes the descriptors of one process those of another.
pub fn copy_block(descriptors: &mut [u8; 512], from: Process, to: Process)
    ensures { descriptors.new ≡ put_block descriptors.old (to.0 % 16) (block descriptors.old (from.0 % 16)) }
{
    let source = BLOCK * (from.0 % PROCESSES) as usize;
    let at = BLOCK * (to.0 % PROCESSES) as usize;
    descriptors.copy_within(source..source + BLOCK, at);
}

// The set of e alone where e is a file or pipe.
fn file_set(e: u8) -> u64
    ensures { result ≡ file_set e }
{
    if (FIRST_FILE..CONTAINERS).contains(&e) {
        sets::with(0, e)
    } else {
        0
    }
}

// Whether an entry of a table is a container's number: where none is, none is a file's. Each entry is asked, whatever was found, so that the
// compiler takes many at once.
fn any_low(table: &[u8]) -> bool
    ensures { result ≡ false → files_in table.now ≡ 0 }
{
    let mut found = false;
    for &e in table {
        found |= e < CONTAINERS;
    }
    found
}

// The files and pipes that stand in a table, entry by entry.
fn files_each(table: &[u8]) -> u64
    ensures { result ≡ files_in table.now }
{
    let mut files = 0;
    for &e in table {
        files |= file_set(e);
    }
    files
}

// The files and pipes that stand in a table.
fn files_in(table: &[u8]) -> u64
    ensures { result ≡ files_in table.now }
{
    if any_low(table) { files_each(table) } else { 0 }
}

// The files and pipes that the descriptors of process p lead to. Most processes have open none but the first few.
pub fn block_files(descriptors: &[u8; 512], p: Process) -> u64
    ensures { result ≡ files_in (block descriptors.now p.0) }
{
    if p.0 >= PROCESSES {
        return 0;
    }
    let at = BLOCK * p.0 as usize;
    files_in(&descriptors[at..at + 8]) | files_in(&descriptors[at + 8..at + BLOCK])
}
