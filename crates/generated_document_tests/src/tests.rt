//! What is generated of a count, by hand from the rule that makes it.
use dsc_document::Document;
use generated_document::generated_document;
use mof_codec::read;
use mof_values::Instance;
use std::alloc::Global;
use std::test::Fail;

const ONE: &str = "\
instance of MSFT_EnvironmentResource\n{\n ResourceID = \"[Environment]R0\";\n Name = \"V0\";\n Value = \"0\";\n};\n\
instance of OMI_ConfigurationDocument\n{\n Version = \"2.0.0\";\n};\n";

const THREE: &str = "\
instance of MSFT_EnvironmentResource\n{\n ResourceID = \"[Environment]R2\";\n Name = \"V2\";\n Value = \"2\";\n DependsOn = \"[Environment]R0\";\n};\n\
instance of MSFT_EnvironmentResource\n{\n ResourceID = \"[Environment]R1\";\n Name = \"V1\";\n Value = \"1\";\n DependsOn = \"[Environment]R0\";\n};\n\
instance of MSFT_EnvironmentResource\n{\n ResourceID = \"[Environment]R0\";\n Name = \"V0\";\n Value = \"0\";\n};\n\
instance of OMI_ConfigurationDocument\n{\n Version = \"2.0.0\";\n};\n";

// Returns whether the text declares the document's resources in their order, and then the header.
fn declares(alloc: Global, text: &str, document: &Document) -> bool {
    match read(alloc, text.as_bytes()) {
        Ok(instances) => are_of(&instances, document),
        Err(_) => false,
    }
}

fn are_of(instances: &[Instance], document: &Document) -> bool {
    let resources = document.resources.as_slice();
    match instances {
        [declared @ .., _] => {
            declared.len() == resources.len()
                && declared
                    .iter()
                    .zip(resources)
                    .all(|(instance, resource)| *instance == resource.instance)
        }
        [] => false,
    }
}

#[test]
fn the_text_is_that_of_the_count(rt: HostRuntime) -> Result<(), Fail> {
    for (count, text) in [(1, ONE), (3, THREE)] {
        let document = generated_document(rt.alloc(), count)?;
        assert!(rt; declares(rt.alloc(), text, &document), "{count}");
    }
    Ok(())
}

#[test]
fn every_size_is_generated(rt: HostRuntime) -> Result<(), Fail> {
    for count in [0, 1, 2, 7, 63, 64, 65, 4096] {
        let document = generated_document(rt.alloc(), count)?;
        assert!(rt;
            document.resources.as_slice().len() == count as usize,
            "{count}"
        );
    }
    Ok(())
}
