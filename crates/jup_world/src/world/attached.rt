//! An attached site with its streams.
ghost use Rattle.std.specs.Prelude.{◌≡◌, ◌↔◌, ◌<◌, ◌≤◌, ◌+◌, ◌-◌, ◌^◌, ◌++◌, true, false, ℕ, [], ◌∷◌, map, min, length, Some, None, is_some, nat_eq, position, MatchOption, IsTrue, IfSome, IfOk, IfErr, OnOk, OnErr};
ghost use Rattle.std.specs.Option.{option_to_list};
ghost use Rattle.jup_batch.specs.Boards.{board_batches};
ghost use Rattle.jup_star.specs.Stars.{link_of, BoardLink, is_no_memory};
ghost use Rattle.jup_star.specs.Sites.{edit_answer};
ghost use Rattle.jup_star.specs.Messages.{UpRelabelsNoText, DownRelabelsNoText};
ghost use Rattle.jup_lane.specs.Lanes.{bytes_of_all, no_bytes, messages, sent, oldest_length, Carries, ups, downs};
ghost use Rattle.jup_world.specs.Worlds.{attached, one_taken, place_reply, pinged, AreAscending, IsSiteAt};
ghost use Rattle.jup_world.specs.Sound.{edit_reply};
ghost use Rattle.jup_world.specs.Insides.{MakesFew, lane_of, bare_attached};
ghost use Rattle.jup_world.specs.Lanes.{push_reply, filled_stream};
ghost use Rattle.jup_world.specs.Happenings.{IsRead, IsMovedUp, IsMovedDown, IsRefilled, IsFilledDown, RestsDown, FillsAt, with_filled, star_filled, with_answer, Rises, IsRefused, refilled, refilled_star, first_reply, handed, FirstFits, SparesAt, IsQuietAt, AllQuiet};

use super::refusals::edit_refusal;
use crate::Reply;
use jup_batch::{BoardBatch, BoardEdits};
use jup_gather::MOST_MESSAGE;
use jup_lane::Lane;
use jup_link::Msg;
use jup_star::{Down, Made, Site, SiteFault, Star, StarFault, Up};
use jup_window::{Command, Within};
use jup_xform::NoMemory;
use std::alloc::Global;
use std::marker::PhantomData;

/// A site, what it sent that the star has not taken, and what was fetched for it that it has not received,
/// each oldest first.
#[derive(Drop)]
pub struct Attached {
    pub site: Site,
    pub up: Lane<Up>,
    pub down: Lane<Down>,
    // The checker learns of the types within messages from a field that names them.
    within: PhantomData<(Within, BoardBatch, Msg<BoardBatch>, BoardEdits)>,
}

// What a message that the star took answers: the place of an edit in the order.
fn reply_to_take(place: Option<u32>) -> Reply
    ensures reply { result ≡ place_reply board_batches place }
    ensures few { MakesFew result 0 }
{
    match place {
        Some(place) => Reply::Taken(place),
        None => Reply::Heard,
    }
}

/// Where the site of a number is.
pub(crate) fn place_of(sites: &[Attached], number: u32) -> Option<usize>
    requires { (most : ℕ) × AreAscending 0 most (map bare_attached sites.now) }
    ensures place { MatchOption result (attached number (map bare_attached sites.now) ≡ None)
        (λ at. IsSiteAt number (map bare_attached sites.now) at) }
    ensures below { IfSome result (λ at. at < length sites.now) }
{
    // Usually each site from the first on is attached, so its place is known.
    let first = sites.first().map_or(0, |attached| attached.site.number());
    let likely = number.saturating_sub(first) as usize;
    if stands_at(sites, likely, number) {
        return Some(likely);
    }
    first_of(sites, number)
}

// Whether the site of a number is at a place.
fn stands_at(sites: &[Attached], at: usize, number: u32) -> bool
    requires { (most : ℕ) × AreAscending 0 most (map bare_attached sites.now) }
    ensures { IsTrue result → IsSiteAt number (map bare_attached sites.now) at }
{
    match sites.get(at) {
        Some(attached) => attached.site.number() == number,
        None => false,
    }
}

// The first site of a number.
fn first_of(sites: &[Attached], number: u32) -> Option<usize>
    ensures { result ≡ position (λ a. nat_eq a.site.number number) sites.now }
{
    sites
        .iter()
        .position(|attached| attached.site.number() == number)
}

/// Whether no message is on its way from any of these sites or to one.
pub(crate) fn are_quiet(sites: &[Attached], star: &Star) -> bool
    ensures { IsTrue result ↔ AllQuiet star.now (map bare_attached sites.now) }
{
    for attached in sites {
        if !attached.is_quiet(star) {
            return false;
        }
    }
    true
}

// What a push of so many bytes answers.
fn reply_to_push(count: usize) -> Reply
    requires { count < 2 ^ 32 }
    ensures { result ≡ push_reply count }
{
    match count {
        0 => Reply::Nothing,
        _ => Reply::Moved(count as u32),
    }
}

// Writes a message that was fetched, if one was.
fn send_one(lane: &mut Lane<Down>, fetched: &Option<Down>)
    requires relabels { IfSome fetched.now DownRelabelsNoText }
    requires room { MOST_MESSAGE ≤ lane.old.spare }
    ensures way { lane.new.way ≡ sent (bytes_of_all downs (option_to_list fetched.now)) lane.old.way }
    ensures messages { messages downs lane.new.way ≡ messages downs lane.old.way ++ option_to_list fetched.now }
    ensures carry { Carries downs lane.old.way → Carries downs lane.new.way }
{
    if let Some(down) = fetched {
        lane.send(down);
    }
}

// Writes the acknowledgement that a site owes, if it does.
fn acknowledge(lane: &mut Lane<Up>, owed: &Option<Up>)
    requires relabels { IfSome owed.now UpRelabelsNoText }
    requires room { MOST_MESSAGE ≤ lane.old.spare }
    ensures read { length lane.new.way.read ≡ length lane.old.way.read }
    ensures messages { messages ups lane.new.way ≡ messages ups lane.old.way ++ option_to_list owed.now }
    ensures carry { Carries ups lane.old.way → Carries ups lane.new.way }
{
    if let Some(up) = owed {
        lane.send(up);
    }
}

impl Attached {
    /// A site that has just joined.
    pub fn new(alloc: Global, site: Site) -> Attached
        ensures messages { bare_attached result ≡ record { site = site; up = []; down = [] } }
        ensures bytes { lane_of result ≡ record { site = site; up = no_bytes; down = no_bytes } }
    {
        Attached {
            site,
            up: Lane::new(alloc),
            down: Lane::new(alloc),
            within: PhantomData,
        }
    }

    /// The site makes one edit of commands, and its message goes last into the up stream.
    pub fn edit(&mut self, alloc: Global, commands: &[Command]) -> Result<Reply, NoMemory>
        ensures reply { IfOk result (λ reply. reply
            ≡ edit_reply board_batches (edit_answer board_batches commands.now self.old.site)) }
        ensures few { IfOk result (λ reply. MakesFew reply (length commands.now)) }
        ensures ok { OnOk result (bare_attached self.new
            ≡ with_answer (edit_answer board_batches commands.now self.old.site) (bare_attached self.old)) }
        ensures read { OnOk result (IsRead (lane_of self.old) (length self.old.up.way.read) (length self.old.down.way.read) (lane_of self.new)) }
        ensures err { OnErr result (bare_attached self.new ≡ bare_attached self.old) }
        ensures same { OnErr result (lane_of self.new ≡ lane_of self.old) }
    {
        self.up.reserve()?;
        match self.site.edit_batch(alloc, commands) {
            Ok(Made { edit, up }) => {
                self.up.send(&up);
                Ok(Reply::Made(edit))
            }
            Err(fault) => Ok(Reply::Refused(edit_refusal(fault)?)),
        }
    }

    /// The site sends a ping.
    pub(crate) fn ping(&mut self, count: u32) -> Result<(), NoMemory>
        ensures ok { OnOk result (bare_attached self.new ≡ pinged board_batches count (bare_attached self.old)) }
        ensures read { OnOk result (IsRead (lane_of self.old) (length self.old.up.way.read) (length self.old.down.way.read) (lane_of self.new)) }
        ensures err { OnErr result (bare_attached self.new ≡ bare_attached self.old) }
        ensures same { OnErr result (lane_of self.new ≡ lane_of self.old) }
    {
        self.up.reserve()?;
        self.up.send(&Up::Ping(count));
        Ok(())
    }

    /// Moves the oldest message up: the star takes it, or refuses it.
    pub fn move_up(&mut self, alloc: Global, star: &mut Star) -> Result<Reply, StarFault>
        ensures few { IfOk result (λ reply. MakesFew reply 0) }
        ensures taken { IfOk result (λ reply. Rises self.old.site.number (messages ups self.old.up.way) star.old star.new reply) }
        ensures refused { IfErr result (λ fault. is_no_memory fault ≡ false
            → IsRefused self.old.site.number (messages ups self.old.up.way) star.old star.new fault) }
        ensures memory { IfErr result (λ fault. is_no_memory fault ≡ true → star.new ≡ star.old) }
        ensures ok { OnOk result (bare_attached self.new ≡ one_taken board_batches (bare_attached self.old)) }
        ensures read { OnOk result (IsRead (lane_of self.old)
            (length self.old.up.way.read - oldest_length ups (messages ups self.old.up.way)) (length self.old.down.way.read) (lane_of self.new)) }
        ensures err { OnErr result (bare_attached self.new ≡ bare_attached self.old) }
        ensures moved { OnErr result (IsMovedUp (lane_of self.old) (lane_of self.new)) }
    {
        let first = match self.up.first(alloc) {
            Ok(first) => first,
            Err(NoMemory) => return Err(StarFault::NoMemory),
        };
        let Some(up) = first else {
            return Ok(Reply::Nothing);
        };
        let place = match star.take(alloc, self.site.number(), &up) {
            Ok(place) => place,
            Err(fault) => return Err(fault),
        };
        self.up.drop_first(&up);
        Ok(reply_to_take(place))
    }

    /// Moves the oldest message on its way down: fetches it if the down stream is empty, and hands it to the
    /// site. If an allocation fails, it may have been fetched, and some of its bytes moved.
    pub fn move_down(&mut self, alloc: Global, star: &mut Star) -> Result<Reply, NoMemory>
        requires linked { is_some (link_of self.old.site.number star.old.links) ≡ true }
        requires fits { (l : BoardLink) → link_of self.old.site.number star.old.links ≡ Some l
            → FirstFits (refilled l (bare_attached self.old)) }
        ensures few { IfOk result (λ reply. MakesFew reply 0) }
        ensures reply { IfOk result (λ reply. (l : BoardLink) → link_of self.old.site.number star.old.links ≡ Some l
            → reply ≡ first_reply (refilled l (bare_attached self.old))) }
        ensures site { OnOk result ((l : BoardLink) → link_of self.old.site.number star.old.links ≡ Some l
            → bare_attached self.new ≡ handed (refilled l (bare_attached self.old))) }
        ensures star { OnOk result ((l : BoardLink) → link_of self.old.site.number star.old.links ≡ Some l
            → star.new ≡ refilled_star l (bare_attached self.old) star.old) }
        ensures read { OnOk result ((l : BoardLink) → link_of self.old.site.number star.old.links ≡ Some l
            → IsRead (lane_of self.old) (length self.old.up.way.read)
            (length self.old.down.way.read - oldest_length downs (messages downs self.old.down.way ++ l.outbox)) (lane_of self.new)) }
        ensures err { OnErr result ((l : BoardLink) → link_of self.old.site.number star.old.links ≡ Some l
            → SparesAt l (bare_attached self.old) star.old (bare_attached self.new) star.new) }
        ensures moved { OnErr result ((l : BoardLink) → link_of self.old.site.number star.old.links ≡ Some l
            → RestsDown l (lane_of self.old) (lane_of self.new)) }
    {
        self.refill(star)?;
        self.hand(alloc)
    }

    // Fetches the oldest message of the site's outbox, if nothing is on its way down.
    fn refill(&mut self, star: &mut Star) -> Result<(), NoMemory>
        requires { is_some (link_of self.old.site.number star.old.links) ≡ true }
        ensures site { OnOk result ((l : BoardLink) → link_of self.old.site.number star.old.links ≡ Some l
            → bare_attached self.new ≡ refilled l (bare_attached self.old)) }
        ensures star { OnOk result ((l : BoardLink) → link_of self.old.site.number star.old.links ≡ Some l
            → star.new ≡ refilled_star l (bare_attached self.old) star.old) }
        ensures filled { OnOk result ((l : BoardLink) → link_of self.old.site.number star.old.links ≡ Some l
            → IsRefilled l (lane_of self.old) (lane_of self.new)) }
        ensures same_site { OnErr result (lane_of self.new ≡ lane_of self.old) }
        ensures same_star { OnErr result (star.new ≡ star.old) }
    {
        if self.down.is_idle() {
            self.fill(star)?;
        }
        Ok(())
    }

    // Fetches the oldest message of the site's outbox, if the down stream has no byte. Inlined, so that the message is not copied.
    #[inline(always)]
    fn fill(&mut self, star: &mut Star) -> Result<(), NoMemory>
        requires { is_some (link_of self.old.site.number star.old.links) ≡ true }
        ensures site { OnOk result ((l : BoardLink) → link_of self.old.site.number star.old.links ≡ Some l
            → bare_attached self.new ≡ with_filled self.old.down.way.stream l (bare_attached self.old)) }
        ensures star { OnOk result ((l : BoardLink) → link_of self.old.site.number star.old.links ≡ Some l
            → star.new ≡ star_filled self.old.site.number self.old.down.way.stream l.outbox star.old) }
        ensures filled { OnOk result ((l : BoardLink) → link_of self.old.site.number star.old.links ≡ Some l
            → IsFilledDown l (lane_of self.old) (lane_of self.new)) }
        ensures same_site { OnErr result (lane_of self.new ≡ lane_of self.old) }
        ensures same_star { OnErr result (star.new ≡ star.old) }
    {
        let number = self.site.number();
        if self.down.is_stream_empty() && star.waiting(number) != Some(0) {
            self.down.reserve()?;
            let Ok(fetched) = star.fetch_one(number) else {
                unreachable!();
            };
            send_one(&mut self.down, &fetched);
        }
        Ok(())
    }

    // Hands the site the oldest message of its down stream. What it sends back goes last into its up
    // stream.
    #[tactic(auto, using(crate::proofs::Answers::back_relabels))]
    fn hand(&mut self, alloc: Global) -> Result<Reply, NoMemory>
        requires { FirstFits (bare_attached self.old) }
        ensures few { IfOk result (λ reply. MakesFew reply 0) }
        ensures reply { IfOk result (λ reply. reply ≡ first_reply (bare_attached self.old)) }
        ensures ok { OnOk result (bare_attached self.new ≡ handed (bare_attached self.old)) }
        ensures read { OnOk result (IsRead (lane_of self.old) (length self.old.up.way.read)
            (length self.old.down.way.read - oldest_length downs (messages downs self.old.down.way)) (lane_of self.new)) }
        ensures err { OnErr result (bare_attached self.new ≡ bare_attached self.old) }
        ensures moved { OnErr result (IsMovedDown (lane_of self.old) (lane_of self.new)) }
    {
        let Some(down) = self.down.first(alloc)? else {
            return Ok(Reply::Nothing);
        };
        self.up.reserve()?;
        let reply = match &down {
            Down::Op(_) => Reply::Shown,
            Down::Ack(_) | Down::Pong(_) => Reply::Heard,
        };
        let owed = match self.site.deliver(alloc, &down) {
            Ok(owed) => owed,
            Err(SiteFault::NoMemory) => return Err(NoMemory),
            Err(_) => unreachable!(),
        };
        acknowledge(&mut self.up, &owed);
        self.down.drop_first(&down);
        Ok(reply)
    }

    /// Moves up to so many bytes of the up stream to the star's reader.
    pub(crate) fn push_up(&mut self, alloc: Global, most: u32) -> Result<Reply, NoMemory>
        ensures few { IfOk result (λ reply. MakesFew reply 0) }
        ensures reply { IfOk result (λ reply. reply ≡ push_reply (min most (length self.old.up.way.stream))) }
        ensures ok { OnOk result (bare_attached self.new ≡ bare_attached self.old) }
        ensures read { OnOk result (IsRead (lane_of self.old)
            (length self.old.up.way.read + min most (length self.old.up.way.stream)) (length self.old.down.way.read) (lane_of self.new)) }
        ensures err { OnErr result (lane_of self.new ≡ lane_of self.old) }
    {
        let count = self.up.push(alloc, most)?;
        Ok(reply_to_push(count))
    }

    /// Moves up to so many bytes of the down stream, which is filled first if it has none, to the site's
    /// reader. If an allocation fails, a message may have been fetched.
    pub(crate) fn push_down(
        &mut self,
        alloc: Global,
        star: &mut Star,
        most: u32,
    ) -> Result<Reply, NoMemory>
        requires { is_some (link_of self.old.site.number star.old.links) ≡ true }
        ensures few { IfOk result (λ reply. MakesFew reply 0) }
        ensures reply { IfOk result (λ reply. (l : BoardLink) → link_of self.old.site.number star.old.links ≡ Some l
            → reply ≡ push_reply (min most (length (filled_stream self.old.down.way.stream l.outbox)))) }
        ensures site { OnOk result ((l : BoardLink) → link_of self.old.site.number star.old.links ≡ Some l
            → bare_attached self.new ≡ with_filled self.old.down.way.stream l (bare_attached self.old)) }
        ensures star { OnOk result ((l : BoardLink) → link_of self.old.site.number star.old.links ≡ Some l
            → star.new ≡ star_filled self.old.site.number self.old.down.way.stream l.outbox star.old) }
        ensures read { OnOk result ((l : BoardLink) → link_of self.old.site.number star.old.links ≡ Some l
            → IsRead (lane_of self.old) (length self.old.up.way.read)
            (length self.old.down.way.read + min most (length (filled_stream self.old.down.way.stream l.outbox))) (lane_of self.new)) }
        ensures err { OnErr result ((l : BoardLink) → link_of self.old.site.number star.old.links ≡ Some l
            → FillsAt l (bare_attached self.old) self.old.down.way.stream star.old (bare_attached self.new) star.new) }
        ensures moved { OnErr result ((l : BoardLink) → link_of self.old.site.number star.old.links ≡ Some l
            → RestsDown l (lane_of self.old) (lane_of self.new)) }
    {
        self.fill(star)?;
        let count = self.down.push(alloc, most)?;
        Ok(reply_to_push(count))
    }

    /// Whether no message is on its way from this site or to it.
    pub fn is_quiet(&self, star: &Star) -> bool
        ensures { IsTrue result ↔ IsQuietAt (bare_attached self.now) star.now }
    {
        self.up.is_idle() && self.down.is_idle() && star.waiting(self.site.number()) == Some(0)
    }
}
