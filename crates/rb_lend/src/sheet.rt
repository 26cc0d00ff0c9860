//! The byte buffer of one record.

ghost use Rattle.std.specs.Prelude.{◌≡◌, ◌⊎◌, ◌<◌, ◌^◌, ℕ, List, [], IfOk, IfErr, IsOk, ◌≤◌, replicate, length, vec_len, false};

use crate::lent::Lent;
use crate::short::{CAPACITY, Short};
use std::alloc::{AllocError, Global};
use std::marker::Model;
use std::mem;

// The storage of the bytes.
#[derive(Drop)]
enum Bytes {
    InPlace(Short),
    OnHeap(Vec<u8>),
    // On the heap, set to zero and not lent for writing since then.
    Zeros(Vec<u8>),
}

impl Bytes {
    ghost use Rattle.rb_lend.specs.inner.Sheet.{sheet_bytes, is_known_zero};

    #[inline]
    // Prepares for writing: the bytes are no longer known to be zero.
    fn expect_writes(&mut self)
        ensures same { sheet_bytes self.new ≡ sheet_bytes self.old }
        ensures unknown { is_known_zero self.new ≡ false }
    {
        if let Bytes::Zeros(_) = self {
            let bytes = mem::replace(self, Bytes::InPlace(Short::zeros(0)));
            if let Bytes::Zeros(heap) = bytes {
                *self = Bytes::OnHeap(heap);
            }
        }
    }
}

/// A sheet: the byte buffer of one record, with at most 4,294,967,295 bytes. Up to 16 bytes are stored inline, more on
/// the heap.
///
/// Contracts see a sheet as the list of its bytes. Only `new` and `renew` allocate, and only for more than 16 bytes. A
/// sheet on the heap is known to be all zeros until its bytes are first lent for writing, and until then `clear` does
/// not touch it.
#[derive(Drop)]
pub struct Sheet {
    bytes: Bytes,
    alloc: Global,
}

impl Model for Sheet {
    ghost use Rattle.std.specs.Prelude.{ℕ, List, ◌<◌, ◌^◌, length};
    ghost use Rattle.rb_lend.specs.inner.Sheet.{sheet_bytes, IsSheet};

    ghost Value = { List ℕ };

    ghost view = { λ s. sheet_bytes s.bytes };

    ghost invariant = { λ s. IsSheet s.bytes };
}

impl Sheet {
    #[inline]
    /// Returns a sheet of `n` zero bytes, or `AllocError` if memory for them can't be allocated. Never fails for up to
    /// 16 bytes.
    ///
    /// Takes time linear in `n`.
    pub fn new(alloc: Global, n: u32) -> Result<Sheet, AllocError>
        ensures zeros { IfOk result (λ s. s ≡ replicate n 0) }
        ensures short { n ≤ 16 → IsOk result }
    {
        let n = n as usize;
        let bytes = if n <= CAPACITY {
            Bytes::InPlace(Short::zeros(n))
        } else {
            Bytes::Zeros(vec![in alloc; 0; n]?)
        };
        Ok(Sheet { bytes, alloc })
    }

    #[inline]
    /// Returns a sheet without bytes. Does not allocate.
    pub fn empty(alloc: Global) -> Sheet
        ensures empty { result ≡ [] }
    {
        Sheet {
            bytes: Bytes::InPlace(Short::zeros(0)),
            alloc,
        }
    }

    /// Turns the sheet into one of `n` zero bytes. Allocates only if the sheet never held as many bytes; if that fails,
    /// returns the unchanged sheet with the error.
    ///
    /// Takes time linear in `n`, and in the number of old bytes if they are moved.
    pub fn renew(self, n: u32) -> Result<Sheet, (AllocError, Sheet)>
        ensures zeros { IfOk result (λ s. s ≡ replicate n 0) }
        ensures handed_back { IfErr result (λ e. e.1 ≡ self) }
    {
        let Sheet { bytes, alloc } = self;
        match bytes {
            Bytes::InPlace(short) => match Sheet::new(alloc, n) {
                Ok(sheet) => Ok(sheet),
                Err(refused) => Err((
                    refused,
                    Sheet {
                        bytes: Bytes::InPlace(short),
                        alloc,
                    },
                )),
            },
            Bytes::OnHeap(heap) | Bytes::Zeros(heap) => match cleared(heap, n as usize) {
                Ok(heap) => Ok(Sheet {
                    bytes: Bytes::Zeros(heap),
                    alloc,
                }),
                Err((refused, heap)) => Err((
                    refused,
                    Sheet {
                        bytes: Bytes::OnHeap(heap),
                        alloc,
                    },
                )),
            },
        }
    }

    #[inline]
    /// Sets each byte to zero. A sheet on the heap that was not lent for writing since `new`, `renew` or `clear` is not
    /// touched.
    ///
    /// Takes constant time in that case, and otherwise time linear in the number of bytes.
    pub fn clear(&mut self)
        ensures zeros { self.new ≡ replicate (length self.old) 0 }
    {
        match &mut self.bytes {
            Bytes::InPlace(short) => short.clear(),
            Bytes::OnHeap(heap) => heap.as_mut_slice().fill(0),
            Bytes::Zeros(_) => {}
        }
    }

    #[inline]
    /// Returns the bytes in a new sheet. Inline bytes are copied and also remain in this sheet, which is faster than
    /// clearing them; a sheet on the heap is left empty.
    ///
    /// Takes constant time and does not allocate.
    pub fn hand_out(&mut self) -> Sheet
        ensures value { result ≡ self.old }
        ensures left { (self.new ≡ self.old) ⊎ (self.new ≡ []) }
    {
        if let Bytes::InPlace(short) = &self.bytes {
            return Sheet {
                bytes: Bytes::InPlace(short.copied()),
                alloc: self.alloc,
            };
        }
        mem::replace(self, Sheet::empty(self.alloc))
    }

    #[inline]
    /// Returns the number of bytes of the sheet.
    pub fn len(&self) -> u32
        ensures { result ≡ length self.now }
    {
        match &self.bytes {
            Bytes::InPlace(short) => short.len() as u32,
            Bytes::OnHeap(heap) | Bytes::Zeros(heap) => heap.len() as u32,
        }
    }
}

// Returns the vector with `n` zeros instead of its bytes, or unchanged if memory can't be allocated.
fn cleared(heap: Vec<u8>, n: usize) -> Result<Vec<u8>, (AllocError, Vec<u8>)>
    ensures zeros { IfOk result (λ v. v.items ≡ replicate n 0) }
    ensures handed_back { IfErr result (λ e. e.1.items ≡ heap.items) }
{
    let mut bytes = heap;
    if n > bytes.len() {
        let more = n - bytes.len();
        if let Err(refused) = bytes.reserve(more) {
            return Err((refused, bytes));
        }
    }
    bytes.clear();
    if bytes.resize(n, 0).is_err() {
        unreachable!()
    }
    Ok(bytes)
}

impl Lent for Sheet {
    ghost use Rattle.rb_lend.specs.Ranges.{in_place_of};
    ghost use Rattle.rb_lend.specs.Rewritten.{rewritten_in_place};

    ghost bytes_of = { λ s. s };

    ghost with_bytes = { in_place_of };

    #[inline]
    fn bytes(&self) -> &[u8] {
        match &self.bytes {
            Bytes::InPlace(short) => short.bytes(),
            Bytes::OnHeap(heap) | Bytes::Zeros(heap) => heap.as_slice(),
        }
    }

    #[inline]
    fn bytes_mut(&mut self) -> &mut [u8] {
        self.bytes.expect_writes();
        match &mut self.bytes {
            Bytes::InPlace(short) => return short.bytes_mut(),
            Bytes::OnHeap(heap) => return heap.as_mut_slice(),
            Bytes::Zeros(_) => unreachable!(),
        }
    }

    #[inline]
    fn range_mut(&mut self, at: usize, len: usize) -> &mut [u8] {
        self.bytes.expect_writes();
        match &mut self.bytes {
            Bytes::InPlace(short) => return short.range_mut(at, len),
            Bytes::OnHeap(heap) => return heap.slice_mut(at..at + len),
            Bytes::Zeros(_) => unreachable!(),
        }
    }

    ghost rewritten = { rewritten_in_place };
}
