// What an item of each stream concerns: the queries that watch it, and all windows over it.
ghost use Rattle.std.specs.Prelude.{◌≡◌, ◌++◌, ◌∷◌, ℕ, [], List, None, OnOk, Some, cond, true, bytes_eq};
ghost use Rattle.std.specs.Option.{option_copied};
ghost use Rattle.rsp_engine.specs.Readers.{is_watcher, list_of, lowered, placed, watchers_of, windows_of, without, without_windows};

use crate::live_query::{LiveQuery, StreamWindow, asks_contents, is_over_some};
use indexmap::IndexMap;
use rsp_terms::Text;
use rsp_windows::Window;
use std::alloc::{AllocError, Global};

/// A window over a stream, with the place of its query among the live ones, which sees the items from number `first` on.
#[derive(Clone, Copy)]
pub(crate) struct PlacedWindow {
    pub place: usize,
    pub first: u64,
    pub shape: Window,
}

/// For each stream that some live query reads, the places of the queries that watch it, which are those whose policy asks for
/// contents, and the windows of all queries over it, both in the order of the queries. An item looks at no other query. And the
/// stream of the newest item: no query but those that watch it has a fresh window.
#[derive(Drop)]
pub(crate) struct Readers {
    watchers: IndexMap<Text, Vec<usize>>,
    windows: IndexMap<Text, Vec<PlacedWindow>>,
    newest: Option<Text>,
}

impl Readers {
    /// No reader of any stream. Takes no memory.
    pub fn new(alloc: Global) -> Readers
        ensures watchers { (s : List ℕ) → watchers_of result s ≡ [] }
        ensures windows { (s : List ℕ) → windows_of result s ≡ [] }
        ensures newest { result.newest ≡ None }
    {
        Readers {
            watchers: IndexMap::new(alloc),
            windows: IndexMap::new(alloc),
            newest: None,
        }
    }

    /// The places of the queries that watch a stream.
    pub fn watchers(&self, stream: &Text) -> &[usize]
        ensures { result.now ≡ watchers_of self.now stream.now }
    {
        listed(&self.watchers, stream)
    }

    /// The windows over a stream.
    pub fn windows(&self, stream: &Text) -> &[PlacedWindow]
        ensures { result.now ≡ windows_of self.now stream.now }
    {
        listed(&self.windows, stream)
    }

    /// The stream of the newest item.
    pub fn newest(&self) -> Option<&Text>
        ensures { option_copied result ≡ self.now.newest }
    {
        self.newest.as_ref()
    }

    /// Notes the stream of an item.
    pub fn note(&mut self, stream: Text)
        ensures { self.new ≡ record self.old { newest = Some stream } }
    {
        self.newest = Some(stream);
    }

    /// Adds a query, behind the others. Fails only where memory is refused.
    pub fn add<A>(
        &mut self,
        alloc: Global,
        live: &LiveQuery<A>,
        place: usize,
    ) -> Result<(), AllocError>
        ensures watchers { OnOk result ((s : List ℕ) → watchers_of self.new s
            ≡ cond (is_watcher s live.now) (watchers_of self.old s ++ place ∷ []) (watchers_of self.old s)) }
        ensures windows { OnOk result ((s : List ℕ) → windows_of self.new s
            ≡ windows_of self.old s ++ placed s place live.now.first live.now.windows) }
        ensures newest { self.new.newest ≡ self.old.newest }
    {
        add_watcher(alloc, &mut self.watchers, live, place)?;
        add_windows(alloc, &mut self.windows, live, place)
    }

    /// Takes out the query at a place, and lowers the places behind it. Takes no memory.
    pub fn remove(&mut self, place: usize)
        ensures watchers { (s : List ℕ) → watchers_of self.new s ≡ without place (watchers_of self.old s) }
        ensures windows { (s : List ℕ) → windows_of self.new s ≡ without_windows place (windows_of self.old s) }
        ensures newest { self.new.newest ≡ self.old.newest }
    {
        self.watchers.retain(
            |_stream, places| -> bool
                ensures { (result ≡ true) × (places.new.items ≡ without place places.old.items) }
            {
                take_out(places, place);
                true
            },
        );
        self.windows.retain(
            |_stream, windows| -> bool
                ensures { (result ≡ true) × (windows.new.items ≡ without_windows place windows.old.items) }
            {
                take_windows_out(windows, place);
                true
            },
        );
    }

    /// Lets go of what is listed for these windows' streams where nothing is.
    pub fn tidy(&mut self, windows: &[StreamWindow])
        ensures watchers { (s : List ℕ) → watchers_of self.new s ≡ watchers_of self.old s }
        ensures windows { (s : List ℕ) → windows_of self.new s ≡ windows_of self.old s }
        ensures newest { self.new.newest ≡ self.old.newest }
    {
        tidy(&mut self.watchers, windows);
        tidy(&mut self.windows, windows);
    }
}

// ---- one query more

// the place of a query that asks for contents, once for each stream of its windows
fn add_watcher<A>(
    alloc: Global,
    lists: &mut IndexMap<Text, Vec<usize>>,
    live: &LiveQuery<A>,
    place: usize,
) -> Result<(), AllocError>
    ensures { OnOk result ((s : List ℕ) → list_of lists.new.entries s
        ≡ cond (is_watcher s live.now) (list_of lists.old.entries s ++ place ∷ []) (list_of lists.old.entries s)) }
{
    if !asks_contents(&live.policy) {
        return Ok(());
    }
    let windows = live.windows.as_slice();
    for window in 0..windows.len() {
        let stream = &windows[window].stream;
        if !is_over_some(&windows[..window], stream) {
            push_for(alloc, lists, stream, place)?;
        }
    }
    Ok(())
}

// each window of a query
fn add_windows<A>(
    alloc: Global,
    lists: &mut IndexMap<Text, Vec<PlacedWindow>>,
    live: &LiveQuery<A>,
    place: usize,
) -> Result<(), AllocError>
    ensures { OnOk result ((s : List ℕ) → list_of lists.new.entries s
        ≡ list_of lists.old.entries s ++ placed s place live.now.first live.now.windows) }
{
    let windows = live.windows.as_slice();
    for window in windows {
        let placed = PlacedWindow {
            place,
            first: live.first,
            shape: window.shape,
        };
        push_for(alloc, lists, &window.stream, placed)?;
    }
    Ok(())
}

// ---- one query less

// takes a place out of a list, and lowers those behind it
fn take_out(places: &mut Vec<usize>, place: usize)
    ensures { places.new.items ≡ without place places.old.items }
{
    places.retain(|other| *other != place);
    for index in 0..places.len() {
        places[index] = lowered(places[index], place);
    }
}

// takes the windows of the query at a place out of a list, and lowers the places behind it
fn take_windows_out(windows: &mut Vec<PlacedWindow>, place: usize)
    ensures { windows.new.items ≡ without_windows place windows.old.items }
{
    windows.retain(|window| window.place != place);
    for index in 0..windows.len() {
        windows[index].place = lowered(windows[index].place, place);
    }
}

// another place, once this one is taken out
fn lowered(other: usize, place: usize) -> usize
    ensures { result ≡ lowered place other }
{
    if place < other { other - 1 } else { other }
}

// ---- lists by stream

// what is listed for a stream
fn listed<'a, T>(lists: &'a IndexMap<Text, Vec<T>>, stream: &Text) -> &'a [T]
    ensures { result.now ≡ list_of lists.now.entries stream.now }
{
    match lists.get(stream) {
        Some(listed) => listed.as_slice(),
        None => &[],
    }
}

// puts one last in the stream's list
fn push_for<T: Drop>(
    alloc: Global,
    lists: &mut IndexMap<Text, Vec<T>>,
    stream: &Text,
    one: T,
) -> Result<(), AllocError>
    ensures { OnOk result ((s : List ℕ) → list_of lists.new.entries s
        ≡ cond (bytes_eq stream.now s) (list_of lists.old.entries stream.now ++ one ∷ []) (list_of lists.old.entries s)) }
{
    match lists.get_mut(stream) {
        Some(listed) => listed.push(one)?,
        None => start(alloc, lists, stream, one)?,
    }
    Ok(())
}

// a list of one
fn start<T: Drop>(
    alloc: Global,
    lists: &mut IndexMap<Text, Vec<T>>,
    stream: &Text,
    one: T,
) -> Result<(), AllocError>
    requires { list_of lists.old.entries stream.now ≡ [] }
    ensures { OnOk result ((s : List ℕ) → list_of lists.new.entries s
        ≡ cond (bytes_eq stream.now s) (one ∷ []) (list_of lists.old.entries s)) }
{
    let mut listed = Vec::new(alloc);
    listed.push(one)?;
    lists.insert(stream.share()?, listed)?;
    Ok(())
}

// lets go of the lists of these windows' streams that are empty
fn tidy<T: Drop>(lists: &mut IndexMap<Text, Vec<T>>, windows: &[StreamWindow])
    ensures { (s : List ℕ) → list_of lists.new.entries s ≡ list_of lists.old.entries s }
{
    for window in windows {
        if listed(lists, &window.stream).is_empty() {
            lists.swap_remove(&window.stream);
        }
    }
}
