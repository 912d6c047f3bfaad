// A second ledger of the cotton receipt zone, for long runs beside the library (01 Holding 6). It is written from documents 01 and 02 alone;
// of the library it uses nothing.
//
// It is built another way on purpose. The zone is a book of columns of numbers. Of an account it keeps one number, its wealth: free and
// frozen money together. What is frozen is never moved: it is counted anew from the lots wherever it is asked for. A call's entries
// stand in the book by the lots that they are about. The book is in `ledger_book`, the image in `ledger_image`, the tests of a call
// in `ledger_numbers`, what a call does in `ledger_kinds`; here are the answer, the shortfalls and the four entries.
#![tactic(auto)]

mod answers;
mod call_tables;
mod figures;

pub use call_tables::table;
pub use figures::shortfalls;
use ledger_book::{ANSWER_LENGTH, Book, Call, DAY, IMAGE_LENGTH, Record, Refusal, ZONE};
use ledger_image::{is_valid, read_image, write_image};

// What an entry returns: 0, or the number of the refusal.
fn number(made: Result<(), Refusal>) -> u64 {
    match made {
        Ok(()) => 0,
        Err(refusal) => refusal as u64,
    }
}

// A call on an image: its number, with image and answer written (01 Calls, Answers).
pub fn call(image: &mut [u8], record: &[u8], answer: &mut [u8]) -> u64 {
    number(make(image, record, answer))
}

fn make(image: &mut [u8], record: &[u8], answer: &mut [u8]) -> Result<(), Refusal> {
    if answer.len() < ANSWER_LENGTH {
        return Err(Refusal::ShortAnswer);
    }
    let mut book = Book::empty();
    match judge(&mut book, image, record) {
        Ok(call) => {
            ledger_kinds::perform(&mut book, &call);
            write_image(&mut book, image);
            answers::accept(&book, call.kind(), answer);
            Ok(())
        }
        Err(refusal) => {
            answers::refuse(answer, refusal);
            Err(refusal)
        }
    }
}

// Whether the bytes are a valid image; the book then holds it.
fn is_image(book: &mut Book, image: &[u8]) -> bool {
    if image.len() != IMAGE_LENGTH {
        return false;
    }
    read_image(book, image);
    is_valid(book)
}

// The call that may be made on the image; the book then holds it.
fn judge(book: &mut Book, image: &[u8], record: &[u8]) -> Result<Call, Refusal> {
    if !is_image(book, image) {
        return Err(Refusal::BadImage);
    }
    let record = <&Record>::try_from(record).map_err(|_| Refusal::BadCall)?;
    let call = Call::read(record);
    ledger_numbers::check(book, &call)?;
    Ok(call)
}

// A fresh zone: nothing in the book but day 1.
pub fn fresh(image: &mut [u8]) -> u64 {
    number(write_fresh(image))
}

fn write_fresh(image: &mut [u8]) -> Result<(), Refusal> {
    if image.len() != IMAGE_LENGTH {
        return Err(Refusal::BadImage);
    }
    let mut book = Book::empty();
    book.set(DAY, ZONE, 1);
    write_image(&mut book, image);
    Ok(())
}
