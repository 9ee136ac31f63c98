use std::alloc::{AllocError, Global};
use std::fs;
use std::test::Fail;
use vba_base::{
    Files, MemFiles, MemSink, NeverFails, OsFiles, OsSink, ReadAnswer, Sink, WriteAnswer,
};

/// Two files: "a" with three bytes and "b" with none.
fn two_files(alloc: Global) -> Result<Vec<(String, Vec<u8>)>, AllocError> {
    let mut files = Vec::new(alloc);
    let bytes = Vec::from_slice(alloc, b"xyz")?;
    files.push((String::from_str(alloc, "a")?, bytes))?;
    files.push((String::from_str(alloc, "b")?, Vec::new(alloc)))?;
    Ok(files)
}

/// Whether a read gives these bytes, or why it gives none.
fn read<F: Files>(
    alloc: Global,
    files: &mut F,
    name: &str,
    limit: u64,
    wanted: &[u8],
) -> Result<bool, ReadAnswer> {
    let mut into = Vec::new(alloc);
    files.read(alloc, name, limit, &mut into)?;
    Ok(into.as_slice() == wanted)
}

/// At the limit, one byte past it, a listed call in the middle, and a name that isn't held until it is written.
#[test]
fn files_in_memory(rt: HostRuntime) -> Result<(), Fail> {
    let alloc = rt.alloc();
    let held = two_files(alloc)?;
    assert!(rt; MemFiles::are_different(&held));
    let mut files = MemFiles::new(alloc, held, vec![in alloc; 3, 6]?);
    let reads = [
        read(alloc, &mut files, "a", 3, b"xyz"),
        read(alloc, &mut files, "a", 2, b""),
        read(alloc, &mut files, "a", 3, b"xyz"),
        read(alloc, &mut files, "c", 9, b""),
    ];
    let writes = [
        files.write("c", b"new"),
        files.write("c", b"lost"),
        files.write("a", b"other"),
    ];
    let last = read(alloc, &mut files, "c", 3, b"new");
    let other = read(alloc, &mut files, "a", 5, b"other");
    assert!(rt;
        reads
            == [
                Ok(true),
                Err(ReadAnswer::TooLong),
                Err(ReadAnswer::Failed),
                Err(ReadAnswer::Failed)
            ]
    );
    assert!(rt; writes == [Ok(()), Err(WriteAnswer::Failed), Ok(())]);
    assert!(rt; last == Ok(true) && other == Ok(true) && files.held("d").is_none());
    Ok(())
}

#[test]
fn names_are_different(rt: HostRuntime) -> Result<(), Fail> {
    let alloc = rt.alloc();
    let mut files = two_files(alloc)?;
    files.push((String::from_str(alloc, "a")?, Vec::new(alloc)))?;
    assert!(rt; !MemFiles::are_different(&files));
    Ok(())
}

/// Puts fail in the middle of a stream, with some of their bytes taken or all.
#[test]
fn sinks_in_memory(rt: HostRuntime) -> Result<(), Fail> {
    let mut sink = MemSink::new(rt.alloc(), vec![in rt.alloc(); (2, 1), (3, 9)]?);
    let puts = [
        sink.put(b"one"),
        sink.put(b"two"),
        sink.put(b"xyz"),
        sink.put(b"."),
    ];
    let failed = Err(WriteAnswer::Failed);
    assert!(rt; puts == [Ok(()), failed, failed, Ok(())]);
    assert!(rt; sink.taken() == b"onetxyz.".as_slice());
    let mut sink = NeverFails::new(rt.alloc());
    let puts = [sink.put(b"one"), sink.put(b"two")];
    assert!(rt; puts == [Ok(()); 2] && sink.taken() == b"onetwo".as_slice());
    Ok(())
}

#[test]
fn files_of_the_system(rt: HostRuntime) -> Result<(), Fail> {
    let alloc = rt.alloc();
    let name = "tests_of_values.txt";
    let mut files = OsFiles::new(rt);
    let wrote = files.write(name, b"seven b");
    let whole = read(alloc, &mut files, name, 7, b"seven b");
    let long = read(alloc, &mut files, name, 6, b"");
    fs::remove_file(&rt, name)?;
    let removed = read(alloc, &mut files, name, 7, b"");
    let no_folder = files.write("tests_of_values_no_folder/x", b"x");
    assert!(rt; [wrote, no_folder] == [Ok(()), Err(WriteAnswer::Failed)]);
    assert!(rt;
        [whole, long, removed] == [Ok(true), Err(ReadAnswer::TooLong), Err(ReadAnswer::Failed)]
    );
    Ok(())
}

#[test]
fn sinks_of_the_system(rt: HostRuntime) -> Result<(), Fail> {
    let name = "tests_of_values_sink.txt";
    let mut sink = OsSink::new(fs::create(&rt, name)?);
    let puts = [sink.put(b"first "), sink.put(b"second")];
    assert!(rt;
        puts == [Ok(()); 2] && fs::read(&rt, name)?.as_slice() == b"first second".as_slice()
    );
    fs::remove_file(&rt, name)?;

    // What is open for reading takes nothing.
    let mut sink = OsSink::new(fs::open(&rt, "/dev/null")?);
    let refused = sink.put(b"x");
    let mut out = OsSink::new(rt.stdout());
    let mut err = OsSink::new(rt.stderr());
    let puts = [
        out.put(b"to standard output\n"),
        err.put(b"to standard error\n"),
    ];
    assert!(rt; refused == Err(WriteAnswer::Failed) && puts == [Ok(()); 2]);
    Ok(())
}
