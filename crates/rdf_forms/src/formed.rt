//! An element with its form.
ghost use Rattle.std.specs.Prelude.{◌≡◌};
ghost use Rattle.rdf_forms.specs.Forms.{form_of};
ghost use Rattle.rdf_forms.specs.FormViews.{form_in};

use crate::forms::{Form, form_of};
use xml_grammar::Element;

/// An element with its form, which is decided once for all that asks for it.
#[derive(Clone, Copy)]
pub struct Formed<'e, 'p> {
    pub element: &'e Element<'p>,
    pub form: Form<'e, 'p>,
    pub ghost form_is: { form_in form ≡ form_of element.now },
}

impl<'e, 'p> Formed<'e, 'p> {
    /// The element with its form.
    pub fn of(element: &'e Element<'p>) -> Formed<'e, 'p>
        ensures { result.element.now ≡ element.now }
    {
        Formed {
            element,
            form: form_of(element),
        }
    }
}
