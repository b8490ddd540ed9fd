//! Instances by name.

ghost use Rattle.std.specs.Prelude.{◌≡◌, ◌||◌, ◌&&◌, drop, length};
ghost use Rattle.std.specs.Option.{option_map};
ghost use Rattle.std.specs.Str.{bytes_eq};
ghost use Rattle.class_hierarchy.specs.World.{object_name};
ghost use Rattle.descriptors.specs.Texts.{is_array, is_class, is_reference, name_of};
ghost use Rattle.world.specs.Instances.{elements_of, is_object_of, class_instance, is_instance, is_instance_by, is_array_of, are_elements_of, is_object_of_type, is_array_of_type};

use crate::world::World;
use class_pool::Text;
use descriptors::{is_array, is_class, is_reference, name_of};

/// The class that every array is an instance of.
const OBJECT: &[u8] = b"java/lang/Object";

/// The text behind its first byte.
fn behind_first(text: &[u8]) -> &[u8]
    ensures { result.now ≡ drop 1 text.now }
{
    match text {
        [_, rest @ ..] => rest,
        [] => text,
    }
}

/// The names of the elements of two arrays, where both are references.
fn elements_of<'a>(a: &'a [u8], b: &'a [u8]) -> Option<(&'a [u8], &'a [u8])>
    ensures { option_map (λ r. (r.0.now, r.1.now)) result ≡ elements_of a.now b.now }
{
    let x = behind_first(a);
    let y = behind_first(b);
    if is_array(b) && is_reference(x) && is_reference(y) {
        Some((name_of(x), name_of(y)))
    } else {
        None
    }
}

/// Whether every array, or every one like a, is an instance of b.
fn is_own(a: &[u8], b: &[u8]) -> bool
    ensures { result ≡ (bytes_eq b.now object_name || bytes_eq b.now a.now) }
{
    b == OBJECT || b == a
}

impl World {
    /// Whether an object of the class with this number is an instance of the class of this name. False where no class
    /// of the world has the name.
    pub fn is_object_of(&self, class: u32, of: &[u8]) -> bool
        ensures { result ≡ is_object_of self.now class of.now }
    {
        match self.class_named(of) {
            Some(other) => self.is_below(class, other),
            None => false,
        }
    }

    /// Whether a class of the world is an instance of another.
    #[tactic(auto, unfolding(crate::specs::Instances::class_instance))]
    fn class_instance(&self, a: &[u8], b: &[u8]) -> bool
        ensures { result ≡ class_instance self.now a.now b.now }
    {
        let Some(class) = self.class_named(a) else {
            return false;
        };
        self.is_object_of(class, b)
    }

    /// Whether an object of the one name is an instance of the other, of which at most so many brackets are taken off.
    fn is_instance_by(&self, brackets: usize, class: &[u8], of: &[u8]) -> bool
        ensures { result ≡ is_instance_by self.now brackets class.now of.now }
    {
        let mut a = class;
        let mut b = of;
        for _ in 0..brackets {
            if !is_array(a) {
                let is_plain = self.class_instance(a, b);
                return is_plain;
            }
            if is_own(a, b) {
                return true;
            }
            match elements_of(a, b) {
                Some((x, y)) => {
                    a = x;
                    b = y;
                }
                None => return false,
            }
        }
        let is_last = self.class_instance(a, b);
        is_last
    }

    /// Whether an object of this class is an instance of the other: of itself, of a superclass, or of an interface that
    /// one of these names, also through interfaces. A name that begins with a bracket is an array's descriptor. False
    /// where a name isn't in the world.
    #[tactic(auto, unfolding(crate::specs::Instances::is_instance))]
    pub fn instance(&self, class: &Text, of: &Text) -> bool
        ensures { result ≡ is_instance self.now class.now of.now }
    {
        let class = class.as_slice();
        self.is_instance_by(class.len(), class, of.as_slice())
    }

    /// Whether the one type of elements is the other, or both are references and each of the one is one of the other.
    fn are_elements_of(&self, element: &[u8], other: &[u8]) -> bool
        ensures { result ≡ are_elements_of self.now element.now other.now }
    {
        other == element
            || is_reference(element)
                && (is_reference(other)
                    && self.is_instance_by(element.len(), name_of(element), name_of(other)))
    }

    /// Whether the name is that of all objects, or that of an array of which elements of this type are elements.
    fn is_array_by(&self, element: &[u8], of: &[u8]) -> bool
        ensures { result ≡ (bytes_eq of.now object_name || (is_array of.now && are_elements_of self.now element.now (drop 1 of.now))) }
    {
        of == OBJECT || is_array(of) && self.are_elements_of(element, behind_first(of))
    }

    /// Whether an array of elements of this type is an instance of the class of this name, or of the arrays with this
    /// descriptor.
    pub fn is_array_of(&self, element: &[u8], of: &[u8]) -> bool
        ensures { result ≡ is_array_of self.now element.now of.now }
    {
        let is_one = self.is_array_by(element, of);
        is_one
    }

    /// Whether an object of the class with this number is of the type with this descriptor.
    pub fn is_object_of_type(&self, class: u32, desc: &[u8]) -> bool
        ensures { result ≡ is_object_of_type self.now class desc.now }
    {
        is_class(desc) && self.is_object_of(class, name_of(desc))
    }

    /// Whether an array of elements of this type is of the type with this descriptor.
    pub fn is_array_of_type(&self, element: &[u8], desc: &[u8]) -> bool
        ensures { result ≡ is_array_of_type self.now element.now desc.now }
    {
        is_reference(desc) && self.is_array_of(element, name_of(desc))
    }
}
