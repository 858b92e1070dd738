// The items of several streams as one list.
ghost use Rattle.std.specs.Prelude.{◌≡◌, ◌++◌, ◌<◌, ◌^◌, IfOk, OnOk, filter};
ghost use Rattle.std.specs.List.{AllByRecursion};
ghost use Rattle.std.specs.List.Sorted.{IsPermutation};
ghost use Rattle.rsp_events.specs.Instants.{IsInstant};
ghost use Rattle.rsp_events.specs.Merged.{item_time, merged};
ghost use Rattle.rsp_events.specs.Sorting as sorting;

use crate::Event;
use rsp_terms::Listed;
use std::alloc::{AllocError, Global};

/// The items of all lists by time, those of one time by list and then by place in the list; other events are left out.
/// Compares about n log n times. Fails only where memory is refused.
pub fn merge(alloc: Global, lists: Listed<Listed<Event>>) -> Result<Listed<Event>, AllocError>
    ensures value { IfOk result (λ items. items ≡ merged lists) }
    ensures permutation { IfOk result (λ items. IsPermutation (sorting.all_items lists) items) }
    ensures timed { AllByRecursion (λ events. AllByRecursion IsInstant events) lists
        → IfOk result (λ items. AllByRecursion IsInstant items) }
{
    let mut items = all_items(alloc, lists)?;
    items.sort_by_key(|item| item_time(item))?;
    Ok(Listed::from_vec(items))
}

fn all_items(alloc: Global, lists: Listed<Listed<Event>>) -> Result<Vec<Event>, AllocError>
    ensures value { IfOk result (λ items. items.items ≡ sorting.all_items lists) }
    ensures low { IfOk result (λ items. AllByRecursion (λ item. item_time item < 2 ^ 64) items.items) }
{
    let mut items = Vec::new(alloc);
    for events in lists.into_vec() {
        push_items(&mut items, events)?;
    }
    Ok(items)
}

// puts the items among some events behind the items
fn push_items(items: &mut Vec<Event>, events: Listed<Event>) -> Result<(), AllocError>
    ensures value { OnOk result (items.new.items ≡ items.old.items ++ filter sorting.is_item events) }
    ensures low { AllByRecursion (λ item. item_time item < 2 ^ 64) items.old.items
        → AllByRecursion (λ item. item_time item < 2 ^ 64) items.new.items }
{
    for event in events.into_vec() {
        if is_item(&event) {
            items.push(event)?;
        }
    }
    Ok(())
}

fn is_item(event: &Event) -> bool
    ensures value { result ≡ sorting.is_item event.now }
    ensures low { item_time event.now < 2 ^ 64 }
{
    // a time that is read has 64 bits
    let _time = item_time(event);
    match event {
        Event::Item { .. } => true,
        _ => false,
    }
}

// the time of an item; 0 stands for other events
fn item_time(event: &Event) -> u64
    ensures { result ≡ item_time event.now }
{
    match event {
        Event::Item { time, .. } => *time,
        _ => 0,
    }
}
