// Mails and their control words, both ways, and words that no mail has.
use pq_types::answer::{Answer, Reply};
use pq_types::item::Item;
use pq_types::mail::Mail;
use pq_types::request::Request;

const FIVE: Item = Item {
    priority: 5,
    value: 9,
};

const FIVE_WORD: u64 = 5 * 4_294_967_296 + 9;

// The mails that have an item, with both their words.
const WITH_ITEM: [(Mail, u64, u64); 3] = [
    (Mail::Posted(1, Request::Push(FIVE)), 17, FIVE_WORD),
    (
        Mail::Answered(Answer::Entered(4, Reply::Got(FIVE))),
        73,
        FIVE_WORD,
    ),
    (
        Mail::Answered(Answer::Entered(3, Reply::Least(FIVE))),
        58,
        FIVE_WORD,
    ),
];

// The others, with their control words.
const WITHOUT_ITEM: [(Mail, u64); 7] = [
    (Mail::Nothing, 0),
    (Mail::Posted(16_777_215, Request::Pop), 268_435_442),
    (Mail::Posted(2, Request::Least), 35),
    (Mail::Answered(Answer::Entered(1, Reply::Pushed)), 24),
    (
        Mail::Answered(Answer::Entered(1_048_576, Reply::Empty)),
        16_777_227,
    ),
    (Mail::Answered(Answer::BookFull), 12),
    (Mail::Answered(Answer::NoMemory), 13),
];

// Where there is no item, its word makes no difference.
#[test]
fn each_mail_has_its_words_and_is_read_back(rt: HostRuntime) {
    for &(mail, control, item) in &WITH_ITEM {
        assert!(rt;
            mail.control() == control && mail.item() == Some(item),
            "{control}"
        );
        assert!(rt; Mail::read(control, item) == Some(mail), "{control}");
    }
    for &(mail, control) in &WITHOUT_ITEM {
        assert!(rt;
            mail.control() == control && mail.item().is_none(),
            "{control}"
        );
        for &item in &[0, 1, u64::MAX] {
            assert!(rt; Mail::read(control, item) == Some(mail), "{control}");
        }
    }
}

#[test]
fn control_words_of_no_mail_are_refused_whatever_the_item(rt: HostRuntime) {
    const REFUSED: [(u64, &str); 7] = [
        (4, "no such phase"),
        (1, "a post with serial 0"),
        (16, "nothing, with a number"),
        (28, "a full book, with a number"),
        (16_777_243, "a line above the last"),
        (268_435_456, "a bit above the parts"),
        (1_152_921_504_606_846_976, "a bit far above them"),
    ];
    for &(control, why) in &REFUSED {
        for &item in &[0, 1, FIVE_WORD, u64::MAX] {
            assert!(rt; Mail::read(control, item).is_none(), "{why}");
        }
    }
}
