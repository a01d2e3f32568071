// Words of one client, and words between two threads.
ghost use Rattle.std.specs.Prelude.{◌≡◌, ◌<◌, ◌∷◌, [], length};
ghost use Rattle.cq_flying.specs.Words.{word_ids, seat_ids, own_id, opened_of, IsOwnerOf};

use crate::{Looker, MadeWords, Owner, WordSeats, Words, close_words};
use cq_inbox::{Flags, TableName};
use std::alloc::{AllocError, Global};
use std::marker::Brand;
use std::sync::Wait;
use std::test::Fail;
use std::thread::{Threads, join};

/// Opens a word, drops its delivery twice, looks, and closes the word.
fn one_word<N: TableName>(words: &Words, owner: &mut Owner, seats: WordSeats) -> (WordSeats, bool)
    requires words { (word_ids words.now ≡ N.tables) × (seat_ids seats ≡ N.tables) × (length (seat_ids seats) ≡ 1) }
    requires owner { IsOwnerOf words.now owner.old }
    requires none { length (opened_of seats 0) ≡ 0 }
    ensures words { seat_ids result.0 ≡ N.tables }
    ensures owner { own_id owner.new ≡ own_id owner.old }
{
    let mut looker = Looker::<N>::new(words, seats);
    let early = owner.drop_delivery(words, 7);
    looker.open_word(0, 7);
    let before = looker.dropped(0, 7);
    let other = owner.drop_delivery(words, 8);
    let first = owner.drop_delivery(words, 7);
    let second = owner.drop_delivery(words, 7);
    let after = looker.dropped(0, 7);
    looker.close_word(0, 7);
    let late = owner.drop_delivery(words, 7);
    (
        looker.into_seats(),
        first && after && !(early || before || other || second || late),
    )
}

/// One thread: drops each delivery, again and again until it is dropped.
fn drop_all<R: Wait>(rt: &R, words: &Words, mut owner: Owner, count: u32) -> Owner
    requires { IsOwnerOf words.now owner }
    ensures { own_id result ≡ own_id owner }
{
    for delivery in 0..count {
        for _ in rt.forever() {
            if owner.drop_delivery(words, delivery) {
                break;
            }
        }
    }
    owner
}

/// Opens a word, and closes it once its delivery was seen dropped.
fn until_dropped<N: TableName, R: Wait>(rt: &R, looker: &mut Looker<'_, N>, delivery: u32)
    requires client { 0 < length (seat_ids looker.old.seats) }
    requires none { length (opened_of looker.old.seats 0) ≡ 0 }
    ensures client { 0 < length (seat_ids looker.new.seats) }
    ensures none { length (opened_of looker.new.seats 0) ≡ 0 }
{
    looker.open_word(0, delivery);
    for _ in rt.forever() {
        if looker.dropped(0, delivery) {
            break;
        }
    }
    looker.close_word(0, delivery);
}

/// The other thread: so many deliveries, one after another.
fn see_all<N: TableName, R: Wait>(rt: &R, words: &Words, seats: WordSeats, count: u32) -> WordSeats
    requires words { (word_ids words.now ≡ N.tables) × (seat_ids seats ≡ N.tables) × (length (seat_ids seats) ≡ 1) }
    requires none { length (opened_of seats 0) ≡ 0 }
    ensures { seat_ids result ≡ N.tables }
{
    let mut looker = Looker::<N>::new(words, seats);
    for delivery in 0..count {
        until_dropped(rt, &mut looker, delivery);
    }
    looker.into_seats()
}

/// One word by itself, and then two threads.
fn scenario<N: TableName + Send + Sync, R: Threads + Wait + Sync>(
    rt: &R,
    alloc: Global,
    words: Words,
    owner: Owner,
    seats: WordSeats,
) -> Result<(), AllocError>
    requires words { (word_ids words ≡ N.tables) × (seat_ids seats ≡ N.tables) × (own_id owner ∷ [] ≡ N.tables)
        × IsOwnerOf words owner }
    requires none { length (opened_of seats 0) ≡ 0 }
{
    let mut owners = Vec::with_capacity(alloc, 1)?;
    let lent = &words;
    let (owner, seats) = join(
        rt,
        move || -> Owner
            requires { IsOwnerOf lent.now owner }
            ensures { own_id result ≡ own_id owner }
        { drop_all(rt, lent, owner, 1000) },
        move || -> WordSeats
            requires { (word_ids lent.now ≡ N.tables) × (seat_ids seats ≡ N.tables) × (length (seat_ids seats) ≡ 1)
                × (length (opened_of seats 0) ≡ 0) }
            ensures { seat_ids result ≡ N.tables }
        { see_all::<N, R>(rt, lent, seats, 1000) },
    );
    owners.push_reserved(owner);
    close_words(words, owners, seats);
    Ok(())
}

#[test]
fn a_word_is_dropped_once(rt: HostRuntime) -> Result<(), Fail> {
    let made = Words::new(rt.alloc(), 1)?;
    let MadeWords {
        words,
        mut owners,
        looker,
    } = made;
    let Some(mut owner) = owners.pop() else {
        unreachable!()
    };
    let (seats, as_told) = one_word::<Brand>(&words, &mut owner, looker);
    assert!(rt; as_told);
    owners.push(owner)?;
    close_words(words, owners, seats);
    Ok(())
}

#[test]
fn each_drop_is_seen(rt: HostRuntime) -> Result<(), Fail> {
    let made = Words::new(rt.alloc(), 1)?;
    let MadeWords {
        words,
        mut owners,
        looker,
    } = made;
    let Some(owner) = owners.pop() else {
        unreachable!()
    };
    scenario::<Brand, HostRuntime>(&rt, rt.alloc(), words, owner, looker)?;
    Ok(())
}
