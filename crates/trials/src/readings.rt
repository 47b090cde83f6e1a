// Readings at their edges, and what is printed of a list of them.
use reading::{SentReading, report};
use std::alloc::Global;
use std::process::Abort;
use std::test::Fail;

// How many literals a reading states, or the detail of its refusal.
fn literals(name: u8, count: u16) -> Result<u32, u8> {
    let reading = SentReading { name, count };
    reading
        .check()
        .map(|bounds| bounds.count())
        .map_err(|cause| cause.detail)
}

fn prints(rt: &impl Abort, heap: Global, input: &[u8], text: &str) -> Result<(), Fail> {
    assert!(rt; report(heap, input)?.as_str() == text);
    Ok(())
}

#[test]
fn counts_at_their_edges(rt: HostRuntime) {
    assert_eq!(rt; literals(0, 0), Ok(2));
    assert_eq!(rt; literals(0, 1), Ok(2));
    assert_eq!(rt; literals(31, 4094), Ok(2));
    assert_eq!(rt; literals(31, 4095), Ok(1));
    assert_eq!(rt; literals(31, 4096), Err(2));
    assert_eq!(rt; literals(32, 4096), Err(1));
}

#[test]
fn a_list_is_read_to_its_end(rt: HostRuntime) -> Result<(), Fail> {
    let heap = rt.alloc();
    prints(&rt, heap, b"", "readings 0 literals 0\n")?;
    prints(
        &rt,
        heap,
        b"K\x03\xfe\x0f",
        "n3 4094: n3 - 4094 >= 0, 4095 - n3 > 0\nreadings 1 literals 2\n",
    )?;
    prints(
        &rt,
        heap,
        b"K\x03\xff\x0f",
        "n3 4095: n3 - 4095 >= 0\nreadings 1 literals 1\n",
    )
}

#[test]
fn the_first_bad_record_ends_a_list(rt: HostRuntime) -> Result<(), Fail> {
    let heap = rt.alloc();
    prints(
        &rt,
        heap,
        b"K\x00\x00\x00K\x00\x00\x10",
        "n0 0: n0 - 0 >= 0, 1 - n0 > 0\nREFUSED 6 offset 4 place 2 depth 0 side 0 theory 0 detail 2\n",
    )?;
    prints(
        &rt,
        heap,
        b"K\x20\x00\x10",
        "REFUSED 6 offset 0 place 0 depth 0 side 0 theory 0 detail 1\n",
    )?;
    prints(
        &rt,
        heap,
        b"L\x00\x00\x00",
        "REFUSED 2 offset 0 place 0 depth 0 side 0 theory 0 detail 0\n",
    )?;
    prints(
        &rt,
        heap,
        b"k",
        "REFUSED 2 offset 0 place 0 depth 0 side 0 theory 0 detail 0\n",
    )?;
    prints(
        &rt,
        heap,
        b"K\x01\xff\x0fK\x00\x00",
        "n1 4095: n1 - 4095 >= 0\nREFUSED 3 offset 4 place 1 depth 0 side 0 theory 0 detail 0\n",
    )
}

#[test]
fn an_input_may_have_32768_bytes(rt: HostRuntime) -> Result<(), Fail> {
    let heap = rt.alloc();
    let mut input = Vec::new(heap);
    for _ in 0..8192 {
        input.extend_from_slice(b"K\x00\xff\x0f")?;
    }
    let whole = report(heap, input.as_slice())?;
    assert!(rt; whole.as_str().ends_with("readings 8192 literals 8192\n"));
    input.push(75)?;
    prints(
        &rt,
        heap,
        input.as_slice(),
        "REFUSED 1 offset 0 place 0 depth 0 side 0 theory 0 detail 0\n",
    )
}
