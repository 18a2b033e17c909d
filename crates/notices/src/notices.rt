// Notices: so many contracts of a seller are to be delivered in an asset.
ghost use Rattle.std.specs.Prelude.{◌≡◌, ◌+◌, ◌-◌, ◌<◌, ◌&&◌, List, length, get_or, nat_le, nat_lt, slice_index_or, slice_set};
ghost use Rattle.pairing.specs.declared.line.Line.{Line};
ghost use Rattle.pairs.specs.Records.{no_lots};
ghost use Rattle.book.specs.Data.{contents};
ghost use Rattle.book.specs.Books.{row_named, volume as volume_of};
ghost use Rattle.register.specs.Rules.{Meaning, answer};
ghost use Rattle.rules.specs.declared.session.Session.TheVariants as session_of;
ghost use Rattle.rules.specs.Verdict.{first_failed};
ghost use Rattle.state.specs.Seeing.{record_of, seen};
ghost use Rattle.state.specs.Following.{Follows};
ghost use Rattle.state.specs.Calls.{notice_call};
ghost use Rattle.notices.specs.Noticing.{is_session, speaks as speaks_for, fault_checks, notice_stops, place_or, SellerAt, FitsIn, lot_more, with_lot};

use book::book::Book;
use book::records::Holder;
use pairs::lots::SellerLots;
use rules::answer::Answer;
use rules::fault::Cause;
use rules::session::Session;
use rules::speaker::Speaker;
use state::state::State;

// A notice that is given: who speaks, for which seller, and how many contracts in which asset.
#[derive(Clone, Copy)]
struct AskedNotice {
    speaker: Speaker,
    member: u64,
    number: u64,
    asset: u64,
    contracts: u64,
}

// Whether the speaker is the seller's clearing member or, in the members' notices, its member.
fn speaks_for(session: Session, speaker: Speaker, seller: &Holder) -> bool
    ensures { result ≡ speaks_for session speaker seller.now }
{
    match speaker {
        Speaker::Member(n) => {
            session == Session::MembersNotices && n == u64::from(seller.member)
        }
        Speaker::Clearing(n) => n == u64::from(seller.clearing),
    }
}

// Whether a book of so many assets has this one. There is no `From` that widens a `usize`.
fn has_asset(assets: usize, asset: u64) -> bool
    ensures { result ≡ nat_lt asset assets }
{
    asset < assets as u64
}

// Whether so many contracts are some, and no more than the seller has beside those already notified.
fn has_contracts(seller: &Holder, done: u32, contracts: u64) -> bool
    ensures { result ≡ (nat_lt 0 contracts && nat_le contracts (volume_of seller.now - done)) }
{
    0 < contracts && contracts <= u64::from(seller.volume().saturating_sub(done))
}

// Refuses a notice by the first check of it that fails for this seller.
fn check_notice(
    session: Session,
    asked: AskedNotice,
    seller: &Holder,
    assets: usize,
    done: u32,
) -> Result<(), Cause>
    ensures { result ≡ answer (first_failed (fault_checks session asked.speaker seller.now assets done asked.asset asked.contracts)) }
{
    if !speaks_for(session, asked.speaker, seller) {
        return Err(Cause::NotItsSeller);
    }
    if !has_asset(assets, asked.asset) {
        return Err(Cause::NoSuchAsset);
    }
    if !has_contracts(seller, done, asked.contracts) {
        return Err(Cause::BadContracts);
    }
    Ok(())
}

// The place of the seller with this member and number, if it is one.
fn seller_place(book: &Book, member: u64, number: u64) -> Option<usize>
    ensures { SellerAt (contents book.now) member number result }
{
    book.row_of(member, number)
        .map(|row| row - 1)
        .filter(|&place| book.holders()[place].sells())
}

// The record with the contracts notified.
fn add_lot(held: SellerLots, asset: usize, contracts: u32) -> SellerLots
    requires there { asset < 4 }
    requires countable { held.notified + contracts < 4294967296 }
    ensures { result ≡ with_lot held asset contracts }
{
    let mut lots = held.lots;
    lots[asset] = lots[asset].saturating_add(contracts);
    SellerLots {
        lots,
        notified: held.notified + contracts,
    }
}

// Notes the contracts in the record at a place.
fn note(records: &mut [SellerLots], place: usize, asset: usize, contracts: u32)
    requires there { place < length records.old }
    requires an_asset { asset < 4 }
    requires countable { (get_or records.old place no_lots).notified + contracts < 4294967296 }
    ensures noted { records.new ≡ slice_set records.old place (with_lot (slice_index_or records.old place no_lots) asset contracts) }
    ensures there { place < length records.old }
{
    records[place] = add_lot(records[place], asset, contracts);
}

// The place of the seller's record, or what stops the notice.
fn notice_place(state: &State, asked: AskedNotice) -> Result<usize, Cause>
    ensures place_or_cause { result ≡ place_or (notice_stops (contents state.now.book) state.now.session (record_of state.now.lots (row_named (contents state.now.book) asked.member asked.number)).notified asked.speaker asked.member asked.number asked.asset asked.contracts) (row_named (contents state.now.book) asked.member asked.number) }
    ensures fits { FitsIn state.now.lots asked.asset asked.contracts result }
{
    let place = seller_place(&state.book, asked.member, asked.number).ok_or(Cause::NoSuchSeller)?;
    check_notice(
        state.session,
        asked,
        &state.book.holders()[place],
        state.book.assets().len(),
        state.lots[place].notified,
    )?;
    Ok(place)
}

fn notice_by_rules(state: &mut State, asked: AskedNotice) -> Result<Answer, Cause>
    ensures goes_on_by_the_rules { (lines : List Line) (securities cash : Meaning) → Follows (seen state.old lines securities cash) (notice_call asked.speaker asked.member asked.number asked.asset asked.contracts) result (seen state.new lines securities cash) }
{
    let place = notice_place(state, asked)?;
    // Both are in range by the checks, so nothing is cut off, and a `TryFrom` would add a refusal that never comes.
    note(
        &mut state.lots,
        place,
        asked.asset as usize,
        asked.contracts as u32,
    );
    Ok(Answer::Done)
}

// Gives notice that so many contracts of a seller are to be delivered in an asset: they are added to its lot for that
// asset. Lines and registers have no part in it.
pub fn notice(
    state: &mut State,
    speaker: Speaker,
    member: u64,
    number: u64,
    asset: u64,
    contracts: u64,
) -> Result<Answer, Cause>
    ensures goes_on_by_the_rules { (lines : List Line) (securities cash : Meaning) → Follows (seen state.old lines securities cash) (notice_call speaker member number asset contracts) result (seen state.new lines securities cash) }
{
    let asked = AskedNotice {
        speaker,
        member,
        number,
        asset,
        contracts,
    };
    notice_by_rules(state, asked)
}
