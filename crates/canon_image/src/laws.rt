//! Laws of images, as contracts of functions that do nothing.

ghost use Rattle.canon_model.specs.Laws.{ImagesDetermine};
ghost use Rattle.canon_image_parts.specs.Laws.{ImagesComeBack, StopsOnce};

/// No image begins another, and two trees are the same exactly if their images are.
pub fn images_determine()
    ensures { ImagesDetermine }
{
    canon_model::laws::images_determine()
}

/// Reading stops at one place and in one way, and nowhere in an image.
pub fn stops_once()
    ensures { StopsOnce }
{}

/// What `image` gave of a value `read_image` reads as the same value, with its flags in their type's order, each once; and what `read_image`
/// gave has the image that it was read from.
pub fn images_come_back()
    ensures { ImagesComeBack }
{}
