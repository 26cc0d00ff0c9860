//! The numbers of the helpers (Linux include/uapi/linux/bpf.h), and the error numbers that an output returns negated.
//! bpf-helpers(7) describes each helper.

/// bpf_ringbuf_output: a record with a copy of bytes, submitted at once.
pub const OUTPUT: u32 = 130;

/// bpf_ringbuf_reserve: a record to fill in, or null.
pub const RESERVE: u32 = 131;

/// bpf_ringbuf_submit: passes a reserved record to the consumer.
pub const SUBMIT: u32 = 132;

/// bpf_ringbuf_discard: releases a reserved record, which the consumer skips.
pub const DISCARD: u32 = 133;

/// bpf_ringbuf_query: one of four numbers of a ring.
pub const QUERY: u32 = 134;

/// Try again (errno(3)). An output that can't reserve a record returns `-EAGAIN`.
pub const EAGAIN: i64 = 11;

/// Invalid argument (errno(3)). An output with flags above 3 returns `-EINVAL`.
pub const EINVAL: i64 = 22;
