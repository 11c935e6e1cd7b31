//! The tables of fields and refusals.
use cb_desk::{Field, Refusal};

#[test]
fn of_digit_knows_seven_fields(rt: HostRuntime) {
    let fields = [
        (b'0', Some(Field::Symbol)),
        (b'1', Some(Field::Definition)),
        (b'2', Some(Field::Called)),
        (b'3', Some(Field::Calling)),
        (b'4', Some(Field::Text)),
        (b'5', None),
        (b'6', None),
        (b'7', Some(Field::File)),
        (b'8', Some(Field::Including)),
        (b'9', None),
        (1, None),
    ];
    for (digit, field) in fields {
        assert!(rt; Field::of_digit(digit) == field);
    }
}

#[test]
fn refusals_have_numbers_and_texts(rt: HostRuntime) {
    let refusals = [
        (Refusal::UnknownCommand, 1, "unknown command"),
        (Refusal::LineTooLong, 2, "line too long"),
        (Refusal::BadCount, 3, "bad count"),
        (Refusal::InputEnded, 4, "input ended"),
        (Refusal::BadName, 5, "bad name"),
        (Refusal::NoSuchFile, 6, "no such file"),
        (Refusal::FileExists, 7, "file exists"),
        (Refusal::BadText, 8, "bad text"),
        (Refusal::TooLarge, 9, "too large"),
        (Refusal::TooManyFiles, 10, "too many files"),
        (Refusal::NoPattern, 11, "no pattern"),
        (Refusal::NoSuchDefinition, 12, "no such definition"),
        (Refusal::NoSuchLine, 13, "no such line"),
        (Refusal::NothingWanted, 14, "nothing wanted"),
        (Refusal::NothingMarked, 15, "nothing marked"),
        (Refusal::StackEmpty, 16, "tag stack is empty"),
        (Refusal::NothingToUndo, 17, "nothing to undo"),
        (Refusal::NothingToRedo, 18, "nothing to redo"),
        (Refusal::HistoryFull, 19, "history is full"),
        (Refusal::OutOfMemory, 20, "out of memory"),
        (Refusal::NoSuchField, 21, "field not in this profile"),
    ];
    for (refusal, number, text) in refusals {
        assert_eq!(rt; refusal.number(), number);
        assert!(rt; refusal.text() == text);
    }
}
