//! JSON lines of `tape`, `check`, `run` and `explain`.

use crate::endings::ended;
use crate::expected::same_of;
use rb_command_line::Host;
use std::alloc::Global;
use std::fs::File;
use std::io::Eprint;
use std::process::Abort;
use std::rt::Files;
use std::sync::Wait;
use std::thread::Threads;
use std::time::Clock;

const SUBMIT_42: &str = "1851000000000000 0000000000000000
    b702000008000000 b703000000000000 8500000083000000
    1500040000000000 7a0000002a000000 bf01000000000000 b702000000000000 8500000084000000
    b700000000000000 9500000000000000";

// A quotation mark, a backslash, a line feed and a letter of two bytes; and a discarded record of three bytes.
const TEXT_TAPE: [u8; 32] = [
    5, 0, 0, 0, 0, 0, 0, 0, 0x22, 0x5c, 0x0a, 0xc3, 0xa9, 0, 0, 0, 3, 0, 0, 0x40, 0, 0, 0, 0, 0, 0,
    0, 0, 0, 0, 0, 0,
];

// A byte that is not UTF-8.
const BYTE_TAPE: [u8; 16] = [1, 0, 0, 0, 0, 0, 0, 0, 0xff, 0, 0, 0, 0, 0, 0, 0];

// Checks that the result of each command line, over its input, begins with this text.
fn each_ends_so<T: Abort + Threads + Wait + Sync + Files<File = File> + Clock + Eprint + Host>(
    rt: &T,
    alloc: Global,
    rows: &[(&[&str], &[u8], &str)],
) {
    for (words, input, wanted) in rows {
        let ending = ended(rt, alloc, words, input);
        let starts_so = ending.as_str().starts_with(*wanted);
        same_of(rt, &starts_so, &true, &(words, ending.as_str()));
    }
}

#[test]
fn objects_of_tapes(rt: HostRuntime) {
    let rows: [(&[&str], &[u8], &str); 4] = [
        (
            &["tape", "--json", "--size", "4096"],
            &TEXT_TAPE,
            "0 {\"pos\":0,\"len\":5,\"discarded\":false,\"hex\":\"225c0ac3a9\",\"text\":\"\\\"\\\\\\u000a\u{e9}\"}\n{\"pos\":16,\"len\":3,\"discarded\":true}\n",
        ),
        (
            &[
                "tape",
                "--json",
                "--size",
                "4096",
                "--start",
                "9007199254740992",
            ],
            &BYTE_TAPE,
            "0 {\"pos\":9007199254740992,\"len\":1,\"discarded\":false,\"hex\":\"ff\"}\n",
        ),
        (
            &[
                "tape",
                "--json",
                "--size",
                "4096",
                "--start",
                "9007199254741000",
            ],
            &BYTE_TAPE,
            "0 {\"pos\":\"9007199254741000\",\"len\":1,\"discarded\":false,\"hex\":\"ff\"}\n",
        ),
        (
            &["tape", "--json", "--size", "4096"],
            &BYTE_TAPE[..9],
            "1 refused Truncated at 0\n{\"refused\":\"tape\",\"kind\":\"Truncated\",\"offset\":0}\n",
        ),
    ];
    each_ends_so(&rt, rt.alloc(), &rows);
}

#[test]
fn objects_of_runs(rt: HostRuntime) {
    let rows: [(&[&str], &[u8], &str); 3] = [
        (
            &["check", "--json"],
            SUBMIT_42.as_bytes(),
            "0 {\"accepted\":true,\"result\":0}\n{\"ring\":0,\"pos\":0,\"worker\":0,\"serial\":0,\"len\":8,\"discarded\":false,\"hex\":\"2a00000000000000\",\"text\":\"*\\u0000\\u0000\\u0000\\u0000\\u0000\\u0000\\u0000\"}\n",
        ),
        (
            &["check", "--json"],
            b"b7000000ffffffff 9500000000000000",
            "0 {\"accepted\":true,\"result\":\"18446744073709551615\"}\n",
        ),
        (
            &[
                "run",
                "--json",
                "--workers",
                "2",
                "--jobs",
                "3",
                "--size",
                "4096",
            ],
            SUBMIT_42.as_bytes(),
            "0 {\"ring\":0,\"worker\":0,\"made\":3,\"refused\":0,\"submitted\":3,\"discarded\":0}\n{\"ring\":0,\"worker\":1,\"made\":3,\"refused\":0,\"submitted\":3,\"discarded\":0}\n{\"ring\":0,\"made\":6,\"consumed\":6,\"discarded\":0,\"waiting\":0,\"busy\":0}\n{\"strays\":0,\"unlogged\":0}\n",
        ),
    ];
    each_ends_so(&rt, rt.alloc(), &rows);
}

#[test]
fn objects_of_explanations(rt: HostRuntime) {
    let rows: [(&[&str], &[u8], &str); 5] = [
        (
            &["explain", "--json"],
            b"b7000000ffffffff 9500000000000000",
            "0 {\"unit\":0,\"bytes\":\"b7000000ffffffff\",\"assembly\":\"r0 = -1\",\"known\":{\"r0\":null,\"r1\":\"context+0\",\"r2\":null,\"r3\":null,\"r4\":null,\"r5\":null,\"r6\":null,\"r7\":null,\"r8\":null,\"r9\":null,\"r10\":\"stack+0\"}}\n{\"unit\":1,\"bytes\":\"9500000000000000\",\"assembly\":\"exit\",\"known\":{\"r0\":\"-1\",\"r1\":\"context+0\",\"r2\":null,\"r3\":null,\"r4\":null,\"r5\":null,\"r6\":null,\"r7\":null,\"r8\":null,\"r9\":null,\"r10\":\"stack+0\"}}\n{\"accepted\":true,\"steps\":2,\"calls\":0}\n{\"ring\":0,\"records\":0,\"bytes\":0,\"held\":0}\n",
        ),
        (
            &["explain", "--json"],
            b"9500000000000000",
            "1 refused verify V1 unit 0\n{\"unit\":0,\"bytes\":\"9500000000000000\",\"assembly\":\"exit\"}\n{\"layer\":\"verify\",\"fault\":\"V1\",\"unit\":0,\"advice\":\"An instruction may only read registers that hold a value on every path to it. Set the register first. After a call, r1 to r5 hold nothing, and after a submit or a discard neither does r0: keep what you need in r6 to r9, or on the stack. Load a pointer from the stack by a single load of eight bytes.\"}\n",
        ),
        (
            &["explain", "--json"],
            b"b700000000000000 9500000000000001",
            "1 refused decode UnusedField unit 1\n{\"unit\":0,\"bytes\":\"b700000000000000\",\"assembly\":\"r0 = 0\"}\n{\"unit\":1,\"bytes\":\"9500000000000001\"}\n{\"layer\":\"decode\",\"fault\":\"UnusedField\",\"unit\":1,\"advice\":\"UnusedField: A field that the instruction does not use is not zero, or a field has a value that the instruction does not allow. Set an unused field to zero.\"}\n",
        ),
        (
            &["explain", "--json"],
            b"950",
            "1 refused text\n{\"layer\":\"text\",\"advice\":\"The text is not pairs of hex digits. A program is text in hex, sixteen digits a unit, with white space anywhere.\"}\n",
        ),
        (
            &["explain", "--json"],
            b"85000000ffffffff 9500000000000000",
            "1 refused verify V15 unit 0\n{\"unit\":0,\"bytes\":\"85000000ffffffff\",\"assembly\":\"call -1\",\"helper\":null}\n{\"unit\":1,\"bytes\":\"9500000000000000\",\"assembly\":\"exit\"}\n{\"layer\":\"verify\",\"fault\":\"V15\",\"unit\":0,\"advice\":\"",
        ),
    ];
    each_ends_so(&rt, rt.alloc(), &rows);
}
