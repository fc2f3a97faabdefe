// What elements added before, and the settings at which they did.
ghost use Rattle.std.specs.Prelude.{◌≡◌, IfSome, None, Some};
ghost use Rattle.std.specs.Option.{option_map};
ghost use Rattle.fd_devices.specs.Settings.{HasOwn, own, settings_in};
ghost use Rattle.fd_network.specs.Former.{HasFirst, IsMovedTo, after_first, after_former, former_in, formers_in, lists_in};

use crate::extents::Extent;
use dss_ready::{Element, Term};
use fd_devices::{Constant, LoadAt, SettingSlices};

/// Stamps one after another in lists of each kind, and how much of each list each has.
#[derive(Clone, Copy)]
pub struct StampSlices<'a> {
    pub extents: &'a [Extent],
    pub constants: &'a [Constant],
    pub terms: &'a [Term],
    pub loads: &'a [LoadAt],
}

impl<'a> StampSlices<'a> {
    /// Those after the first.
    pub fn after(&self) -> StampSlices<'a>
        requires { HasFirst (lists_in self.now) }
        ensures { lists_in result ≡ after_first (lists_in self.now) }
    {
        let first = self.extents[0];
        StampSlices {
            extents: &self.extents[1..],
            constants: &self.constants[first.constants..],
            terms: &self.terms[first.terms..],
            loads: &self.loads[first.loads..],
        }
    }
}

/// What elements in order added before, and their settings then.
#[derive(Clone, Copy)]
pub struct Former<'a> {
    pub stamps: StampSlices<'a>,
    pub at: SettingSlices<'a>,
}

impl<'a> Former<'a> {
    /// That of the elements after the first.
    pub fn after(&self, element: &Element) -> Former<'a>
        requires first { HasFirst (former_in self.now).stamps }
        requires own { HasOwn element.now (former_in self.now).at }
        ensures { former_in result ≡ after_former element.now (former_in self.now) }
    {
        Former {
            stamps: self.stamps.after(),
            at: self.at.after(element),
        }
    }
}

/// That of the elements after the first, where it is known.
pub fn after_former<'a>(former: Option<Former<'a>>, element: &Element) -> Option<Former<'a>>
    requires first { IfSome (formers_in former) (λ v. HasFirst v.stamps) }
    requires own { IfSome (formers_in former) (λ v. HasOwn element.now v.at) }
    ensures { formers_in result ≡ option_map (after_former element.now) (formers_in former.entry) }
{
    match former {
        Some(former) => Some(former.after(element)),
        None => None,
    }
}

/// What is known of the elements, where the first has the settings that it had.
pub fn unmoved<'a>(
    former: Option<Former<'a>>,
    element: &Element,
    left: &SettingSlices,
) -> Option<Former<'a>>
    requires former { IfSome (formers_in former) (λ v. HasOwn element.now v.at) }
    requires left { HasOwn element.now (settings_in left.now) }
    ensures former { IfSome result (λ f. former.entry ≡ Some f) }
    ensures same { IfSome result (λ f. own element.now (settings_in f.at) ≡ own element.now (settings_in left.now)) }
    ensures moved { result ≡ None → IfSome (formers_in former.entry) (IsMovedTo element.now (settings_in left.now)) }
{
    match former {
        Some(before) => {
            if before.at.own(element).is_same(&left.own(element)) {
                Some(before)
            } else {
                None
            }
        }
        None => None,
    }
}
