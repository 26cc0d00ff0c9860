//! The export that reads the headers of records in a ring buffer of Linux.

ghost use Rattle.std.specs.Prelude.{◌≡◌, ◌≢◌, ◌↔◌, ◌⊎◌, if◌then◌else◌};
ghost use Rattle.rb_linux_ring.specs.LinuxHeaders.{IsLinuxPlace, ShowsLinuxFront};
ghost use Rattle.rb_linux_ring.specs.declared.linux_header.LinuxFront.TheVariants.{Busy};
ghost use Rattle.heskavo_c.specs.LinuxRecords.{FindsLinuxFault, FindsLinuxRecord, linux_fault_number};

use crate::status::{ARGUMENT, DONE, FAULT, MORE};
use rb_linux_ring::{LinuxFault, LinuxFront, is_linux_place, read_header};

/// The contents of a record's header in a ring of Linux, or its fault.
#[repr(C)]
#[derive(Clone, Copy)]
pub struct LinuxRecord {
    /// The position of the next record, in bytes.
    pub next: u64,
    /// The length of the payload, in bytes.
    pub len: u32,
    /// 1 if the record was discarded, else 0.
    pub discarded: u32,
    /// The fault of the header, counted from 1 in the order of `LinuxFault`; 0 if there is none.
    pub fault: u32,
}

// Returns the number of a header's fault.
fn number_of_fault(fault: LinuxFault) -> u32
    ensures { result ≡ linux_fault_number fault }
{
    match fault {
        LinuxFault::BothBits => 1,
        LinuxFault::OtherPage => 2,
        LinuxFault::NoRoom => 3,
    }
}

// Returns what is reported of a fault.
fn of_fault(fault: LinuxFault) -> LinuxRecord
    ensures { result ≡ record { next = 0; len = 0; discarded = 0; fault = linux_fault_number fault } }
{
    LinuxRecord {
        next: 0,
        len: 0,
        discarded: 0,
        fault: number_of_fault(fault),
    }
}

// Returns what is reported of a committed record.
fn of_record(len: u32, discarded: bool, next: u64) -> LinuxRecord
    ensures { result ≡ record { next = next; len = len; discarded = (if discarded then 1 else 0); fault = 0 } }
{
    LinuxRecord {
        next,
        len,
        discarded: u32::from(discarded),
        fault: 0,
    }
}

#[unsafe(no_mangle)]
/// Reads the header of the record at `position` of a ring of Linux with `size` bytes of data.
///
/// `header` is the header's eight bytes as one number, with the length word in its lower half. `pages_before_data` is
/// the number of pages before the data, as the kernel counts them.
///
/// Returns `DONE` with a committed record, `MORE` if the record is busy, or `FAULT` with the fault's number. Returns
/// `ARGUMENT` if the size is not a power of two from 4,096 to 2^36, or if the position is not a multiple of 8 or is
/// above 2^61.
///
/// Reads no memory of the ring. Takes constant time.
pub extern "C" fn heskavo_linux_record(
    header: u64,
    size: u64,
    position: u64,
    pages_before_data: u32,
    found: &mut LinuxRecord,
) -> u32
    ensures found { result ≡ DONE → FindsLinuxRecord size position pages_before_data header found.new }
    ensures more { result ≡ MORE → ShowsLinuxFront size position pages_before_data header Busy }
    ensures fault { result ≡ FAULT → FindsLinuxFault size position pages_before_data header found.new }
    ensures argument { (result ≡ ARGUMENT) ↔ ¬ IsLinuxPlace size position }
    ensures unchanged { result ≢ DONE → result ≢ FAULT → found.new ≡ found.old }
    ensures answers { (result ≡ DONE) ⊎ ((result ≡ MORE) ⊎ ((result ≡ FAULT) ⊎ (result ≡ ARGUMENT))) }
{
    if !is_linux_place(size, position) {
        return ARGUMENT;
    }
    match read_header(header, size, position, pages_before_data) {
        Ok(
            LinuxFront::Record {
                len,
                discarded,
                next,
            },
        ) => {
            *found = of_record(len, discarded, next);
            DONE
        }
        Ok(LinuxFront::Busy) => MORE,
        Err(fault) => {
            *found = of_fault(fault);
            FAULT
        }
    }
}
