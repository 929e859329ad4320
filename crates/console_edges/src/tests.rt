use console::read_job;
use records::MOST_BYTES;
use std::io;

#[test]
fn a_job_to_its_end(rt: HostRuntime) -> io::Result<()> {
    let bytes = &b"N\x03\x00\x00\x00\x00\x00\x00"[..];
    let job = read_job(rt.alloc(), bytes)?;
    assert_eq!(rt; job.as_slice(), bytes);
    let none = read_job(rt.alloc(), &b""[..])?;
    assert_eq!(rt; none.len(), 0);
    Ok(())
}

// The longest job is read whole, and one byte of what lies past it.
#[test]
fn the_longest_job_and_one_byte(rt: HostRuntime) -> io::Result<()> {
    let bytes = [7u8; MOST_BYTES + 2];
    assert_eq!(rt;
        read_job(rt.alloc(), &bytes[..MOST_BYTES])?.len(),
        MOST_BYTES
    );
    assert_eq!(rt; read_job(rt.alloc(), &bytes[..])?.len(), MOST_BYTES + 1);
    Ok(())
}
