use job::{print, run};
use refusal::Refusal;
use text::Text;

// The path 0–1–2 settled from its middle: 12 deliveries bring a message, and node 1 is drawn in vain.
const PATH: [u8; 80] =
    *b"N\x03\0\0\0\0\0\0L\0\x01\0\0\0\0\0L\x01\x02\0\0\0\0\0D\x01\0\0\0\0\0\x01M\0\0\0\0\0\0\x06D\0\0\0\0\0\0\x01M\0\0\0\0\0\0\x03D\x02\0\0\0\0\0\x01M\0\0\0\0\0\0\x03D\x01\0\0\0\0\0\x01";

#[test]
fn the_listed_job(rt: HostRuntime) {
    let mut buffer = [7u8; 1030];
    assert_eq!(rt; run(&PATH, &mut buffer), Ok(35));
    let listing = b"0 2 2 1\n1 1 1 1\n2 3 3 1\nend 12 1 3\n".as_slice();
    assert_eq!(rt; &buffer[0..35], listing);
    assert_eq!(rt; print(&PATH).as_bytes(), listing);
    assert!(rt; buffer[35..].iter().all(|byte| *byte == 7));
}

#[test]
fn buffers(rt: HostRuntime) {
    let mut short = [7u8; 1023];
    assert_eq!(rt; run(&PATH, &mut short), Err(Refusal::Short));
    assert_eq!(rt; run(b"torn", &mut short), Err(Refusal::Short));
    let mut exact = [7u8; 1024];
    assert_eq!(rt; run(&PATH[0..79], &mut exact), Err(Refusal::Torn));
    assert_eq!(rt; run(&PATH[8..80], &mut exact), Err(Refusal::Record(0)));
    assert_eq!(rt; run(&[], &mut exact), Err(Refusal::Record(0)));
    assert_eq!(rt; short, [7; 1023]);
    assert_eq!(rt; exact, [7; 1024]);
    assert_eq!(rt; run(&PATH[0..8], &mut exact), Ok(34));
    assert_eq!(rt;
        &exact[0..35],
        b"0 0 0 0\n1 0 0 0\n2 0 0 0\nend 0 0 0\n\x07".as_slice()
    );
}

// A node that the map does not have is for the rig to refuse, and the job goes on.
#[test]
fn refused_events(rt: HostRuntime) {
    let job =
        b"N\x01\0\0\0\0\0\0D\x01\0\0\0\0\0\x01R\xff\0\0\0\0\0\0R\0\0\0\0\0\0\0D\0\0\0\0\0\0\0D\0\0\0\0\0\0\x01D\0\0\0\0\0\0\x01M\0\0\0\0\0\x10\0";
    assert_eq!(rt; print(job).as_bytes(), b"0 1 1 1\nend 0 4 1\n".as_slice());
}

#[test]
fn numbers(rt: HostRuntime) {
    let mut text = Text::new();
    text.push_number(0);
    text.end_line(&[9, 10, 65_535, 16_773_120]);
    assert_eq!(rt; text.as_bytes(), b"0 9 10 65535 16773120\n".as_slice());
}
