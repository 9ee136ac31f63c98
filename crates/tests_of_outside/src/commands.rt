use std::alloc::{AllocError, Global};
use std::process::Abort;
use std::test::Fail;
use vba_base::{MemFiles, MemSink};
use vba_cli::run_cli;

/// A command, and which calls of the outside fail.
#[derive(Clone, Copy)]
struct Given<'a> {
    words: &'a [&'a str],
    /// The numbers of the reads that fail.
    reads: &'a [u64],
    /// The puts on `out` that fail, and how many bytes each takes before.
    out: &'a [(u64, usize)],
    /// The same of `err`.
    err: &'a [(u64, usize)],
}

/// The words of a command.
fn words_of(alloc: Global, words: &[&str]) -> Result<Vec<String>, AllocError> {
    let mut all = Vec::new(alloc);
    for word in words {
        all.push(String::from_str(alloc, word)?)?;
    }
    Ok(all)
}

/// A command over one file `m.bas` ends with this status, after `out` and `err` have taken these bytes.
fn answers(
    rt: &(impl Abort + AllocGlobal),
    given: Given,
    source: Vec<u8>,
    wanted: (u8, &[u8], &[u8]),
) -> Result<(), Fail> {
    let alloc = rt.alloc();
    let words = words_of(alloc, given.words)?;
    let mut held = Vec::new(alloc);
    held.push((String::from_str(alloc, "m.bas")?, source))?;
    assert!(rt; MemFiles::are_different(&held));
    let mut files = MemFiles::new(alloc, held, Vec::from_slice(alloc, given.reads)?);
    let mut out = MemSink::new(alloc, Vec::from_slice(alloc, given.out)?);
    let mut err = MemSink::new(alloc, Vec::from_slice(alloc, given.err)?);
    let status = run_cli(alloc, &words, &mut files, &mut out, &mut err);
    assert_eq!(rt; status.code(), wanted.0);
    assert_eq!(rt; out.taken(), wanted.1);
    assert_eq!(rt; err.taken(), wanted.2);
    Ok(())
}

const RUN: [&str; 2] = ["run", "m.bas"];

/// Each end of a run, with calls that fail on its way.
#[test]
fn faults(rt: HostRuntime) -> Result<(), Fail> {
    let runs = b"Sub Main()\nDebug.Print 2 + 3\nEnd Sub\n".as_slice();
    let refused = b"x = = 1".as_slice();
    for (words, reads, out, err, source, wanted) in [
        // `out` fails at its first put, of which it takes one byte.
        (
            RUN.as_slice(),
            [].as_slice(),
            [(1, 1)].as_slice(),
            [].as_slice(),
            runs,
            (7, b" ".as_slice(), b"vbarun: cannot write\n".as_slice()),
        ),
        // `out` and `err` fail.
        (&RUN, &[], &[(1, 0)], &[(1, 3)], runs, (7, b"", b"vba")),
        // The read fails.
        (
            &RUN,
            &[1],
            &[],
            &[],
            runs,
            (6, b"", b"vbarun: cannot read m.bas\n"),
        ),
        // The read and `err` fail.
        (&RUN, &[1], &[], &[(1, 6)], runs, (7, b"", b"vbarun")),
        // `err` fails at the text of a refusal, and at the usage.
        (&RUN, &[], &[], &[(1, 0)], refused, (7, b"", b"")),
        (&[], &[], &[], &[(1, 7)], refused, (7, b"", b"vbarun:")),
    ] {
        let given = Given {
            words,
            reads,
            out,
            err,
        };
        answers(&rt, given, Vec::from_slice(rt.alloc(), source)?, wanted)?;
    }
    Ok(())
}

/// A file with one byte more than a file may have. It is kept cheap by being one list of zeros: a read that finds too
/// many bytes copies none of them.
#[test]
fn long_file(rt: HostRuntime) -> Result<(), Fail> {
    let given = Given {
        words: &RUN,
        reads: &[],
        out: &[],
        err: &[],
    };
    let source = vec![in rt.alloc(); 0u8; 67_108_865]?;
    answers(&rt, given, source, (9, b"", b"vbarun: too long: m.bas\n"))
}

/// The list, the module and the sheets of a run that saves.
const SAVED: [(&str, &[u8]); 4] = [
    (
        "p.txt",
        b"Module=m.bas\nSheet=S;s.csv\nSheet=T;t.csv\nStartup=Module1.Main\n",
    ),
    ("m.bas", b"Sub Main()\nDebug.Print 1\nEnd Sub\n"),
    ("s.csv", b"a,007\n"),
    ("t.csv", b"b\n"),
];

/// A disk that is full at the second save, the sixth call behind four reads: the first sheet is saved, the second isn't.
#[test]
fn full_disk(rt: HostRuntime) -> Result<(), Fail> {
    let alloc = rt.alloc();
    let words = words_of(alloc, &["run", "--save", ".out", "p.txt"])?;
    let mut held = Vec::new(alloc);
    for (name, bytes) in SAVED {
        held.push((
            String::from_str(alloc, name)?,
            Vec::from_slice(alloc, bytes)?,
        ))?;
    }
    assert!(rt; MemFiles::are_different(&held));
    let mut files = MemFiles::new(alloc, held, Vec::from_slice(alloc, &[6])?);
    let mut out = MemSink::new(alloc, Vec::new(alloc));
    let mut err = MemSink::new(alloc, Vec::new(alloc));
    let status = run_cli(alloc, &words, &mut files, &mut out, &mut err);
    assert_eq!(rt; status.code(), 7);
    assert_eq!(rt; out.taken(), b" 1 \n".as_slice());
    assert_eq!(rt; err.taken(), b"vbarun: cannot write\n".as_slice());
    match files.held("s.csv.out") {
        Some(bytes) => assert_eq!(rt; bytes.as_slice(), b"a,007\n".as_slice()),
        None => assert!(rt; false),
    }
    assert!(rt; files.held("t.csv.out").is_none());
    Ok(())
}
