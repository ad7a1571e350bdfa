ghost use Rattle.std.specs.Prelude.{◌≡◌, ◌+◌, ◌≤◌, ◌<◌, ◌-◌, ◌++◌, ◌∷◌, [], replicate, length, Some, None, IsOk, IfOk, IfSome, OnOk, OnErr, vec_len, vec_capacity};
ghost use Rattle.std.specs.Option.{option_map};
ghost use Rattle.place_mail.specs.Mail.{front_at, posted, taken};
ghost use Rattle.place_mail.specs.Queue.{relinked, extended};

use crate::request::Request;
use phrase_tree::NoMemory;
use std::alloc::Global;
use std::marker::Model;

/// A request and the place, by its index, to which it went.
#[derive(Clone, Copy, Debug)]
pub struct Post {
    pub place: u32,
    pub request: Request,
}

/// The indices of the first post of a place that waits, and of the last one that ever went there.
#[derive(Clone, Copy, Debug)]
pub struct Ends {
    pub first: Option<usize>,
    pub last: Option<usize>,
}

/// The requests that wait at each place, in one list of posts. Posting, looking at the first request
/// and taking it take constant time.
#[derive(Debug, Drop)]
pub struct Queue {
    posts: Vec<Post>,
    // Where the next post of the same place stands.
    links: Vec<Option<usize>>,
    places: Vec<Ends>,
    // The number of posts for which there is room.
    room: usize,
}

impl Model for Queue {
    ghost use Rattle.std.specs.Prelude.{◌≡◌, ◌+◌, ◌≤◌, vec_len, vec_capacity};
    ghost use Rattle.place_mail.specs.Queue.{Queued, queued_code, Linked, Ended, lists_from};

    ghost Value = { Queued };

    ghost coded = { queued_code };

    ghost view = { λ q. record { lists = lists_from q.posts.items 0 q.places.items; room = q.room } };

    ghost invariant = { λ q. Linked q.posts.items q.posts.items q.links.items
        × Ended q.posts.items 0 q.places.items
        × (vec_len q.posts + q.room ≤ vec_capacity q.posts)
        × (vec_len q.links + q.room ≤ vec_capacity q.links) };
}

impl Queue {
    /// No requests at this many places, with room for this many posts in all.
    pub fn open(alloc: Global, places: u32, requests: u32) -> Result<Queue, NoMemory>
        ensures { IfOk result (λ queue. queue ≡ record { lists = replicate places []; room = requests }) }
    {
        let posts = Vec::with_capacity(alloc, requests as usize)?;
        let links = Vec::with_capacity(alloc, requests as usize)?;
        let places = no_ends(alloc, places as usize)?;
        Ok(Queue {
            posts,
            links,
            places,
            room: requests as usize,
        })
    }

    /// Posts a request to a place, behind those that wait there.
    pub fn post(&mut self, place: u32, request: Request) -> Result<(), NoMemory>
        requires { place < length self.old.lists }
        ensures ok { OnOk result (self.new ≡ record { lists = posted place request self.old.lists; room = self.old.room - 1 }) }
        ensures err { OnErr result (self.new ≡ self.old) }
        ensures room { 1 ≤ self.old.room → IsOk result }
    {
        match self.make_room() {
            Ok(()) => {}
            Err(_) => return Err(NoMemory),
        }
        self.append(place, request);
        Ok(())
    }

    /// Takes room for one post, unless there is room already.
    fn make_room(&mut self) -> Result<(), NoMemory>
        ensures ok { OnOk result ((1 ≤ self.new.room) × (self.new.room - 1 ≡ self.old.room - 1) × (self.new.lists ≡ self.old.lists)) }
        ensures err { OnErr result (self.new ≡ self.old) }
        ensures room { 1 ≤ self.old.room → IsOk result }
    {
        if self.room > 0 {
            return Ok(());
        }
        if self.posts.reserve(1).is_err() {
            return Err(NoMemory);
        }
        if self.links.reserve(1).is_err() {
            return Err(NoMemory);
        }
        self.room = 1;
        Ok(())
    }

    fn append(&mut self, place: u32, request: Request)
        requires place { place < length self.old.lists }
        requires room { 1 ≤ self.old.room }
        ensures { self.new ≡ record { lists = posted place request self.old.lists; room = self.old.room - 1 } }
    {
        let next = self.posts.len();
        let ends = self.places[place as usize];
        push_post(
            &mut self.posts,
            &mut self.links,
            Post { place, request },
            ends.last,
        );
        self.places[place as usize] = extended(ends, next);
        self.room -= 1;
    }

    /// Takes the first request that waits at a place; none exactly when none waits, and then nothing
    /// changes.
    pub fn take_front(&mut self, place: u32) -> Option<Request>
        requires { place < length self.old.lists }
        ensures front { result ≡ front_at place self.old.lists }
        ensures rest { self.new ≡ record { lists = taken place self.old.lists; room = self.old.room } }
    {
        let ends = self.places[place as usize];
        let first = match ends.first {
            Some(first) => first,
            None => return None,
        };
        let request = self.posts[first].request;
        self.places[place as usize] = Ends {
            first: self.links[first],
            last: ends.last,
        };
        Some(request)
    }

    /// The first request that waits at a place; none exactly when none waits.
    pub fn front(&self, place: u32) -> Option<&Request>
        requires { place < length self.now.lists }
        ensures { option_map (λ request. request.now) result ≡ front_at place self.now.lists }
    {
        match self.places[place as usize].first {
            Some(first) => Some(&self.posts[first].request),
            None => None,
        }
    }
}

/// The ends of places to which no request was posted.
fn no_ends(alloc: Global, count: usize) -> Result<Vec<Ends>, NoMemory>
    ensures { IfOk result (λ places. places.items ≡ replicate count (record { first = None; last = None })) }
{
    let none = Ends {
        first: None,
        last: None,
    };
    let places = vec![in alloc; none; count]?;
    Ok(places)
}

/// The ends of a place whose last post is now the next one.
fn extended(ends: Ends, next: usize) -> Ends
    ensures { result ≡ extended ends next }
{
    match ends.first {
        None => Ends {
            first: Some(next),
            last: Some(next),
        },
        Some(first) => Ends {
            first: Some(first),
            last: Some(next),
        },
    }
}

/// Makes the last post lead to the next one.
fn link_last(links: &mut Vec<Option<usize>>, last: Option<usize>, next: usize)
    requires { IfSome last (λ index. index < vec_len links.old) }
    ensures links { links.new.items ≡ relinked links.old.items last next }
    ensures len { vec_len links.new ≡ vec_len links.old }
    ensures capacity { vec_capacity links.new ≡ vec_capacity links.old }
{
    match last {
        Some(index) => links[index] = Some(next),
        None => {}
    }
}

/// Appends a post, to which the last one of its place leads.
fn push_post(posts: &mut Vec<Post>, links: &mut Vec<Option<usize>>, post: Post, last: Option<usize>)
    requires room { vec_len posts.old < vec_capacity posts.old }
    requires links { vec_len links.old < vec_capacity links.old }
    requires last { IfSome last (λ index. index < vec_len links.old) }
    ensures posts { posts.new.items ≡ posts.old.items ++ post ∷ [] }
    ensures links { links.new.items ≡ relinked links.old.items last (length posts.old.items) ++ None ∷ [] }
    ensures len { vec_len posts.new ≡ vec_len posts.old + 1 }
    ensures links_len { vec_len links.new ≡ vec_len links.old + 1 }
    ensures capacity { vec_capacity posts.new ≡ vec_capacity posts.old }
    ensures links_capacity { vec_capacity links.new ≡ vec_capacity links.old }
{
    link_last(links, last, posts.len());
    links.push_reserved(None);
    posts.push_reserved(post);
}
