// Windows: worked cases, and small ones that the contracts alone decide.
ghost use Rattle.std.specs.Prelude.{◌≡◌, ◌^◌, ◌≤◌, Some, None, true, false};
ghost use Rattle.rsp_spec.specs.Windows.{Shape};

use rsp_windows::Window;
use std::test::Fail;

// ---- Laws: windows (0, 10], (5, 15], (10, 20], .. and (0, 2], (5, 7], ..

fn second_opening(window: &Window) -> u64
    requires { window.now ≡ record { width = 10; slide = 5; origin = 0 } }
    ensures { result ≡ 5 }
{
    window.opening(1)
}

fn second_closing(window: &Window) -> u64
    requires { window.now ≡ record { width = 10; slide = 5; origin = 0 } }
    ensures { result ≡ 15 }
{
    window.closing(1)
}

fn active_at_its_closing(window: &Window) -> Option<u64>
    requires { window.now ≡ record { width = 10; slide = 5; origin = 0 } }
    ensures { result ≡ Some 0 }
{
    window.active(10)
}

fn active_in_a_gap(window: &Window) -> Option<u64>
    requires { window.now ≡ record { width = 2; slide = 5; origin = 0 } }
    ensures { result ≡ None }
{
    window.active(5)
}

fn closes_first_at_its_width(window: &Window) -> bool
    requires { window.now ≡ record { width = 10; slide = 5; origin = 0 } }
    ensures { result ≡ true }
{
    window.closes_at(10)
}

fn closes_not_at_its_opening(window: &Window) -> bool
    requires { window.now ≡ record { width = 10; slide = 5; origin = 0 } }
    ensures { result ≡ false }
{
    window.closes_at(5)
}

// ---- Cases

// the opening and the closing of the window that is reported at t
fn span(window: &Window, t: u64) -> Option<(u64, u64)>
    requires { t ≤ 2 ^ 48 }
{
    let number = window.active(t)?;
    Some((window.opening(number), window.closing(number)))
}

// (0, 10000], (5000, 15000], (10000, 20000], ..
#[test]
fn reports_the_earliest_of_overlapping_windows(rt: HostRuntime) -> Result<(), Fail> {
    let window = Window::new(10_000, 5_000, 0).ok_or("no window")?;
    for (t, wanted) in [
        (0, None),
        (10_000, Some((0, 10_000))),
        (10_001, Some((5_000, 15_000))),
    ] {
        assert_eq!(rt; span(&window, t), wanted);
    }
    assert!(rt; !window.closes_at(5_000) && window.closes_at(15_000));
    Ok(())
}

// (0, 2], (5, 7], (10, 12], ..
#[test]
fn reports_none_between_windows_that_stand_apart(rt: HostRuntime) -> Result<(), Fail> {
    let window = Window::new(2, 5, 0).ok_or("no window")?;
    for (t, wanted) in [(2, Some((0, 2))), (3, None), (5, None), (6, Some((5, 7)))] {
        assert_eq!(rt; span(&window, t), wanted);
    }
    Ok(())
}

#[test]
fn has_a_width_and_a_slide_within_the_year_9999(rt: HostRuntime) {
    for (width, slide, origin, is_window) in [
        (0, 1, 0, false),
        (1, 0, 0, false),
        (253_402_300_799_999, 1, 253_402_300_799_999, true),
        (253_402_300_800_000, 1, 0, false),
    ] {
        assert_eq!(rt; Window::new(width, slide, origin).is_some(), is_window);
    }
}
