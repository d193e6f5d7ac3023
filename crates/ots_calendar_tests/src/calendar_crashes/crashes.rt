// A book of one commitment and its anchor closes a second round, and gives and anchors its tip. To
// open it takes three calls of the disk, and each of the three then four: the body, a sync, the
// gate, a sync. An image at each moment is opened and asked for both commitments.
use crate::calendar_runs::{
    COMMITMENT, COMPLETE, DIGEST, JOURNAL, LATER, LATER_BLOCK, LATER_COMPLETE, LATER_TIP_ROOT,
    NONCE, SECOND, block_of, book_on, bytes_of, close, counts_of, disk_of, expect_anchor,
    expect_close, expect_tip, handed_back, is_complete, is_pending, is_tip, is_unknown, put,
};
use ots_calendar::Book;
use ots_disk::{Choice, Disk, MemoryDisk};
use std::alloc::Global;
use std::process::Abort;
use std::test::Fail;

/// What is answered of the second commitment.
#[derive(Clone, Copy, Debug, PartialEq, Eq)]
enum Answered {
    Unknown,
    Pending,
    Complete,
}

/// Closes the second round, and gives and anchors its tip.
fn play<D: Disk>(rt: &impl Abort, alloc: Global, book: &mut Book<D>) -> Result<(), Fail> {
    put(book, &DIGEST, NONCE)?;
    expect_close(rt, book, SECOND + 1, Ok(Some(1)))?;
    expect_tip(rt, alloc, book, 1, LATER_TIP_ROOT)?;
    let block = block_of(alloc, LATER_BLOCK)?;
    expect_anchor(rt, book, &block, 8, Ok([1, 1, 8]))
}

/// The same with the book on a disk, which is handed back.
fn play_on<D: Disk + Drop>(rt: &impl Abort, alloc: Global, disk: D) -> Result<D, Fail> {
    let mut book = book_on(alloc, disk)?;
    let ended = play(rt, alloc, &mut book);
    handed_back(ended, book)
}

/// The images that crashes may leave of such a book: at each moment one for each of the choices.
#[derive(Drop)]
struct Images {
    images: Vec<Vec<u8>>,
    /// How many calls were made of the disk. After them is the last moment.
    calls: usize,
}

impl Images {
    /// The image at a moment, the first of which is 1, by the place of its choice.
    fn at(&self, moment: usize, choice: usize) -> Result<&[u8], Fail> {
        let place = moment
            .saturating_sub(1)
            .saturating_mul(CHOICES.len())
            .saturating_add(choice);
        match self.images.get(place) {
            Some(image) => Ok(image.as_slice()),
            None => Err(Fail::from("no such moment")),
        }
    }
}

/// The image of a disk at a moment.
fn image_of(
    alloc: Global,
    disk: &MemoryDisk,
    moment: u64,
    choice: Choice,
) -> Result<Vec<u8>, Fail> {
    if moment < 1 || moment > disk.calls().len() as u64 + 1 {
        return Err(Fail::from("no such moment"));
    }
    let image = disk.image(moment, choice)?;
    Ok(image.items().to_vec(alloc)?)
}

/// Appends the images of a disk at a moment.
fn push_images(
    alloc: Global,
    disk: &MemoryDisk,
    moment: u64,
    images: &mut Vec<Vec<u8>>,
) -> Result<(), Fail> {
    for (choice, _) in CHOICES {
        images.push(image_of(alloc, disk, moment, choice)?)?;
    }
    Ok(())
}

/// The images of a disk at each moment.
fn images_of(alloc: Global, disk: &MemoryDisk) -> Result<Images, Fail> {
    let mut images = Vec::new(alloc);
    let calls = disk.calls().len();
    for moment in 1..=(calls as u64).saturating_add(1) {
        push_images(alloc, disk, moment, &mut images)?;
    }
    Ok(Images { images, calls })
}

/// The images of a book of one commitment and its anchor that makes all these calls.
fn made(rt: &impl Abort, alloc: Global) -> Result<Images, Fail> {
    let bytes = bytes_of(alloc, JOURNAL)?;
    let disk = play_on(rt, alloc, disk_of(alloc, &bytes, &[])?)?;
    images_of(alloc, &disk)
}

/// What a book answers of the second commitment, where it answers the first by its anchor.
fn answer_of<D: Disk>(alloc: Global, book: &Book<D>) -> Result<Answered, Fail> {
    if !is_complete(alloc, book, COMMITMENT, COMPLETE)? {
        return Err(Fail::from("the first is lost"));
    }
    if is_unknown(alloc, book, LATER)? {
        return Ok(Answered::Unknown);
    }
    if is_pending(alloc, book, LATER)? {
        return Ok(Answered::Pending);
    }
    if is_complete(alloc, book, LATER, LATER_COMPLETE)? {
        return Ok(Answered::Complete);
    }
    Err(Fail::from("another anchor"))
}

/// What a book answers of the second commitment, once it is shown that it goes on: it closes a round.
fn found<D: Disk>(alloc: Global, book: &mut Book<D>) -> Result<Answered, Fail> {
    let answer = answer_of(alloc, book)?;
    put(book, &DIGEST, NONCE)?;
    let next = counts_of(book).commits;
    if close(book, SECOND + 2)? != Ok(Some(next)) || answer_of(alloc, book)? != answer {
        return Err(Fail::from("it does not go on"));
    }
    Ok(answer)
}

/// Whether a book gives the tip over the second commitment, and has it once.
fn has_the_tip<D: Disk>(alloc: Global, book: &mut Book<D>) -> Result<bool, Fail> {
    Ok(is_tip(alloc, book, 1, 1, LATER_TIP_ROOT)? && counts_of(book).tips == 2)
}

/// What the book on a disk answers of the second commitment.
fn found_on<D: Disk + Drop>(alloc: Global, disk: D) -> Result<Answered, Fail> {
    found(alloc, &mut book_on(alloc, disk)?)
}

/// Whether the book on a disk has the tip over the second commitment.
fn has_it_on<D: Disk + Drop>(alloc: Global, disk: D) -> Result<bool, Fail> {
    has_the_tip(alloc, &mut book_on(alloc, disk)?)
}

/// What the book of an image answers of the second commitment.
fn found_in(alloc: Global, image: &[u8]) -> Result<Answered, Fail> {
    found_on(alloc, disk_of(alloc, image, &[])?)
}

/// Whether the book of an image has the tip over the second commitment.
fn has_it_in(alloc: Global, image: &[u8]) -> Result<bool, Fail> {
    has_it_on(alloc, disk_of(alloc, image, &[])?)
}

/// What each image at some moments is to answer: where the gate is closed, and where it is open.
#[derive(Clone, Copy)]
struct Answers {
    closed: Answered,
    open: Answered,
}

/// What a crash may make of the writes that no sync has made durable, and whether a gate among them
/// is then open.
const CHOICES: [(Choice, bool); 5] = [
    (Choice::Dropped, false),
    (Choice::Kept, true),
    (Choice::Fill(0x00), false),
    (Choice::Fill(0x37), false),
    (Choice::Fill(0xa5), true),
];

/// The book of an image at this moment answers so.
fn expect_found(
    rt: &impl Abort,
    alloc: Global,
    image: &[u8],
    wanted: Answered,
    moment: usize,
) -> Result<(), Fail> {
    assert_eq!(rt; found_in(alloc, image)?, wanted, "moment {moment}");
    Ok(())
}

/// Each image at this moment has its answer.
fn leave(
    rt: &impl Abort,
    alloc: Global,
    made: &Images,
    moment: usize,
    answers: Answers,
) -> Result<(), Fail> {
    for (choice, (_, open)) in CHOICES.into_iter().enumerate() {
        let wanted = if open { answers.open } else { answers.closed };
        expect_found(rt, alloc, made.at(moment, choice)?, wanted, moment)?;
    }
    Ok(())
}

/// These answers, whatever becomes of the writes.
fn both(answer: Answered) -> Answers {
    Answers {
        closed: answer,
        open: answer,
    }
}

/// The moments up to the first one after `close`.
fn close_moments(rt: &impl Abort, alloc: Global, made: &Images) -> Result<(), Fail> {
    let stored = Answers {
        closed: Answered::Unknown,
        open: Answered::Pending,
    };
    for moment in 1..6 {
        leave(rt, alloc, made, moment, both(Answered::Unknown))?;
    }
    leave(rt, alloc, made, 6, stored)?;
    leave(rt, alloc, made, 7, stored)?;
    leave(rt, alloc, made, 8, both(Answered::Pending))
}

#[test]
fn a_crash_while_a_round_is_closed(rt: HostRuntime) -> Result<(), Fail> {
    let made = made(&rt, rt.alloc())?;
    close_moments(&rt, rt.alloc(), &made)
}

/// The moments from the first in `tip` to the first one after it.
fn tip_moments(rt: &impl Abort, alloc: Global, made: &Images) -> Result<(), Fail> {
    for moment in 8..13 {
        leave(rt, alloc, made, moment, both(Answered::Pending))?;
        for choice in 0..CHOICES.len() {
            let image = made.at(moment, choice)?;
            assert!(rt; has_it_in(alloc, image)?, "moment {moment}");
        }
    }
    Ok(())
}

#[test]
fn a_crash_while_a_tip_is_stored(rt: HostRuntime) -> Result<(), Fail> {
    let made = made(&rt, rt.alloc())?;
    tip_moments(&rt, rt.alloc(), &made)
}

/// The moments from the first in `anchor` to now.
fn anchor_moments(rt: &impl Abort, alloc: Global, made: &Images) -> Result<(), Fail> {
    let stored = Answers {
        closed: Answered::Pending,
        open: Answered::Complete,
    };
    leave(rt, alloc, made, 12, both(Answered::Pending))?;
    leave(rt, alloc, made, 13, both(Answered::Pending))?;
    leave(rt, alloc, made, 14, stored)?;
    leave(rt, alloc, made, 15, stored)?;
    leave(rt, alloc, made, 16, both(Answered::Complete))?;
    assert_eq!(rt; made.calls, 15);
    Ok(())
}

#[test]
fn a_crash_while_an_anchor_is_stored(rt: HostRuntime) -> Result<(), Fail> {
    let made = made(&rt, rt.alloc())?;
    anchor_moments(&rt, rt.alloc(), &made)
}
