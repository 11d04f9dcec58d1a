// What no clause says: that such calls succeed, how much is read of what has no end, and faults in mid-stream.
use crate::{Answer, Fault, Hint, Trouble, check_published, clear_hour, deliver};
use checker::LONGEST_TEXT;
use hour::{HEAD_SIZE, LONGEST_HOUR};
use std::alloc::{AllocError, Global};
use std::io;
use std::io::{Error, ErrorKind, Read, Write};
use std::process::Abort;
use std::test::Fail;

// One zone: a buy of 10 at 58.00 and a sell of 10 at 42.00.
const HOUR: [u8; 21] = [
    1, 1, 0, 1, 0, 0, 0, 0, 0xf8, 0xd9, 0, 10, 0, 0, 0, 0xb8, 0xd3, 0, 10, 0, 0,
];

const TEXT: &str =
    "worth 16000 pushes 1\nzone 0 price 42.00\nbuy 0 has 10 pays 42000\nsell 0 has 10 gets 42000\n";

const CLEARED: Answer = Answer {
    good: true,
    whole: true,
    hint: None,
};

const REFUSED: Answer = Answer {
    good: false,
    whole: true,
    hint: None,
};

// So many zeros, with a count of those that were given.
#[derive(Drop)]
struct Zeros {
    left: u64,
    given: u64,
}

impl Zeros {
    const ENDLESS: Zeros = Zeros {
        left: u64::MAX,
        given: 0,
    };
}

impl Read for Zeros {
    fn read(&mut self, buf: &mut [u8]) -> io::Result<usize> {
        let n = if (buf.len() as u64) < self.left {
            buf.len()
        } else {
            self.left as usize
        };
        buf[..n].fill(0);
        self.left -= n as u64;
        self.given = self.given.saturating_add(n as u64);
        Ok(n)
    }
}

// Nothing can be read from it, or written to it.
#[derive(Drop)]
struct Broken(ErrorKind);

impl Read for Broken {
    fn read(&mut self, _buf: &mut [u8]) -> io::Result<usize> {
        Err(Error::from(self.0))
    }
}

impl Write for Broken {
    fn write(&mut self, _buf: &[u8]) -> io::Result<usize> {
        Err(Error::from(self.0))
    }

    fn flush(&mut self) -> io::Result<()> {
        Ok(())
    }
}

fn says(rt: &impl Abort, written: &Vec<u8>, text: &str) {
    assert!(rt; written.as_slice() == text.as_bytes());
}

#[test]
fn a_result_goes_to_the_first_writer(rt: HostRuntime) -> Result<(), Fail> {
    let mut results = Vec::new(rt.alloc());
    let mut refusals = Vec::new(rt.alloc());
    let answer = clear_hour(
        rt.alloc(),
        &mut HOUR.as_slice(),
        &mut results,
        &mut refusals,
    )?;
    assert_eq!(rt; answer, CLEARED);
    says(&rt, &results, TEXT);
    says(&rt, &refusals, "");
    Ok(())
}

#[test]
fn a_refusal_goes_to_the_second(rt: HostRuntime) -> Result<(), Fail> {
    let mut results = Vec::new(rt.alloc());
    let mut refusals = Vec::new(rt.alloc());
    let answer = clear_hour(rt.alloc(), &mut &HOUR[..20], &mut results, &mut refusals)?;
    assert_eq!(rt; answer, REFUSED);
    says(&rt, &results, "");
    says(&rt, &refusals, "refused 1 at 20\n");
    Ok(())
}

#[test]
fn behind_a_refused_head_nothing_is_read(rt: HostRuntime) -> Result<(), Fail> {
    let mut zeros = Zeros::ENDLESS;
    let mut refusals = Vec::new(rt.alloc());
    let answer = clear_hour(
        rt.alloc(),
        &mut zeros,
        &mut Vec::new(rt.alloc()),
        &mut refusals,
    )?;
    assert_eq!(rt; answer, REFUSED);
    says(&rt, &refusals, "refused 2 at 0\n");
    assert_eq!(rt; zeros.given, HEAD_SIZE as u64);
    Ok(())
}

#[test]
fn what_comes_behind_the_longest_hour_is_counted(rt: HostRuntime) -> Result<(), Fail> {
    let zeros = Zeros {
        left: 1_000_000,
        given: 0,
    };
    let mut hour = HOUR[..HEAD_SIZE].chain(zeros);
    let mut refusals = Vec::new(rt.alloc());
    let answer = clear_hour(
        rt.alloc(),
        &mut hour,
        &mut Vec::new(rt.alloc()),
        &mut refusals,
    )?;
    assert_eq!(rt; answer, REFUSED);
    says(&rt, &refusals, "refused 1 at 1000007\n");
    Ok(())
}

#[test]
fn the_longest_hour_is_read_whole(rt: HostRuntime) -> Result<(), Fail> {
    let head: [u8; 7] = [32, 0xe8, 3, 0xe8, 3, 128, 0];
    let zeros = Zeros {
        left: (LONGEST_HOUR - HEAD_SIZE) as u64,
        given: 0,
    };
    let mut hour = head.as_slice().chain(zeros);
    let mut refusals = Vec::new(rt.alloc());
    clear_hour(
        rt.alloc(),
        &mut hour,
        &mut Vec::new(rt.alloc()),
        &mut refusals,
    )?;
    says(&rt, &refusals, "refused 6 at 11\n");
    Ok(())
}

#[test]
fn an_hour_that_cannot_be_read_is_no_answer(rt: HostRuntime) {
    let mut hour = HOUR[..20].chain(Broken(ErrorKind::PermissionDenied));
    let mut results = Vec::new(rt.alloc());
    let answer = clear_hour(
        rt.alloc(),
        &mut hour,
        &mut results,
        &mut Vec::new(rt.alloc()),
    );
    assert!(rt; matches!(answer, Err(Fault::Hour(_))));
    says(&rt, &results, "");
}

#[test]
fn a_writer_that_fails_is_a_fault(rt: HostRuntime) {
    let mut full = Broken(ErrorKind::StorageFull);
    let answer = clear_hour(
        rt.alloc(),
        &mut HOUR.as_slice(),
        &mut full,
        &mut Vec::new(rt.alloc()),
    );
    assert!(rt; matches!(answer, Err(Fault::Answer(_))));
}

#[test]
fn a_reader_that_is_gone_is_none(rt: HostRuntime) -> Result<(), Fail> {
    assert!(rt; !deliver(&mut Broken(ErrorKind::BrokenPipe), b"text")?);
    Ok(())
}

#[test]
fn a_published_result_stands(rt: HostRuntime) -> Result<(), Fail> {
    let mut said = Vec::new(rt.alloc());
    let answer = check_published(
        rt.alloc(),
        &mut HOUR.as_slice(),
        &mut TEXT.as_bytes(),
        &mut said,
    )?;
    assert_eq!(rt; answer, CLEARED);
    says(&rt, &said, "accepted\nlowest\n");
    Ok(())
}

#[test]
fn of_a_text_without_end_a_front_is_read(rt: HostRuntime) -> Result<(), Fail> {
    let mut text = Zeros::ENDLESS;
    let mut said = Vec::new(rt.alloc());
    let answer = check_published(rt.alloc(), &mut HOUR.as_slice(), &mut text, &mut said)?;
    assert_eq!(rt; answer, REFUSED);
    says(&rt, &said, "unreadable at line 1\n");
    assert_eq!(rt; text.given, (LONGEST_TEXT + 1) as u64);
    Ok(())
}

#[test]
fn files_that_are_swapped_are_told(rt: HostRuntime) -> Result<(), Fail> {
    let answer = check_published(
        rt.alloc(),
        &mut TEXT.as_bytes(),
        &mut HOUR.as_slice(),
        &mut Vec::new(rt.alloc()),
    )?;
    assert_eq!(rt; answer.hint, Some(Hint::ResultForHour));
    Ok(())
}

const LONG: &str =
    "a/folder/with/a/name/that/is/longer/than/what/an/error/of/anyhow/keeps/of/a/message/and/in/it/a/folder/with/another/long/name/hour.bin";

fn shown(heap: Global, trouble: &Trouble) -> Result<String, AllocError> {
    format!(in heap; "{trouble}")
}

#[test]
fn a_long_name_is_said_whole(rt: HostRuntime) -> Result<(), Fail> {
    let gone = Error::from(ErrorKind::NotFound);
    let trouble = Trouble::from(Fault::Hour(gone)).named(rt.alloc(), LONG, "-");
    let said = shown(rt.alloc(), &trouble)?;
    assert!(rt; said.as_str().contains("/long/name/hour.bin"));
    assert!(rt; matches!(trouble, Trouble::Unread { .. }));
    let full = Trouble::unwritten(rt.alloc(), LONG, Error::from(ErrorKind::StorageFull));
    let said = shown(rt.alloc(), &full)?;
    assert!(rt; said.as_str().contains("/long/name/hour.bin"));
    let kept = Trouble::kept(rt.alloc(), LONG, "is no file");
    let said = shown(rt.alloc(), &kept)?;
    assert!(rt;
        said.as_str()
            .ends_with("/long/name/hour.bin\" is no file: it is not written over")
    );
    Ok(())
}

#[test]
fn standard_input_has_no_name(rt: HostRuntime) {
    let gone = Error::from(ErrorKind::NotFound);
    let trouble = Trouble::from(Fault::Published(gone)).named(rt.alloc(), LONG, "-");
    assert!(rt; matches!(trouble, Trouble::Fault(Fault::Published(_))));
}
